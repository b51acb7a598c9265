// Where new steps come from.
ghost use Rattle.std.specs.Prelude.{◌≡◌, ◌+◌, ◌*◌, ◌^◌, ◌≤◌, ◌<◌};
ghost use Rattle.order.specs.States.{state_of};
ghost use Rattle.order.specs.Invariants.{Plain};
ghost use Rattle.order.specs.Graphs.{comes_from, goes_on};

use crate::book::Book;
use crate::record::{Link, Seat};

// The step x comes from the step `from`, of a task that lives in the finish `home`.
fn comes_from(x: u64, from: u64, home: u64) -> Seat
    requires { from < 2 ^ 62 }
    ensures value { result ≡ comes_from x from home }
{
    Seat {
        node: Link { up: home, turn: 0 },
        leaf: Link {
            up: 2 * from + 1,
            turn: x,
        },
    }
}

// The first step of a task that the task spawns.
pub(crate) fn child(book: &Book<'_>, task: u64) -> Seat
    requires plain { Plain (state_of book.now) }
    requires held { task < (state_of book.now).tasks }
    ensures value { let st = state_of book.now in result ≡ comes_from st.steps (st.task task).current (st.task task).inner }
{
    let spawner = book.task(task);
    comes_from(book.steps, spawner.current, spawner.inner)
}

// The task's next step, x.
pub(crate) fn next(book: &Book<'_>, task: u64, x: u64) -> Seat
    requires plain { Plain (state_of book.now) }
    requires held { task < (state_of book.now).tasks }
    ensures value { result ≡ goes_on (state_of book.now) task x }
{
    let here = book.task(task).current;
    comes_from(x, here, book.link(2 * here).up)
}
