// Where new steps hang in the tree.
ghost use Rattle.std.specs.Prelude.{◌≡◌, ◌+◌, ◌*◌, ◌^◌, ◌≤◌, ◌<◌};
ghost use Rattle.order.specs.States.{state_of};
ghost use Rattle.order.specs.Invariants.{Plain};
ghost use Rattle.order.specs.Trees.{leaf_of, in_node, right_of};

use crate::book::Book;
use crate::record::{Link, Seat};

// Where the step hangs that the task is on.
fn leaf(book: &Book<'_>, task: u64) -> Link
    requires plain { Plain (state_of book.now) }
    requires held { task < (state_of book.now).tasks }
    ensures value { result ≡ leaf_of (state_of book.now) task }
    ensures turned { result.turn ≤ 2 * (state_of book.now).steps }
    ensures hung { result.up < 2 * (state_of book.now).steps }
{
    book.link(2 * book.task(task).current + 1)
}

// In the node of a new task, to the right of the task's step: one turn on.
pub(crate) fn in_task(book: &Book<'_>, task: u64) -> Seat
    requires plain { Plain (state_of book.now) }
    requires held { task < (state_of book.now).tasks }
    ensures value { result ≡ in_node (state_of book.now) task 1 }
{
    in_node(book, task, 1)
}

// In the node of a new finish, to the right of the task's step: two turns on.
pub(crate) fn in_finish(book: &Book<'_>, task: u64) -> Seat
    requires plain { Plain (state_of book.now) }
    requires held { task < (state_of book.now).tasks }
    ensures value { result ≡ in_node (state_of book.now) task 2 }
{
    in_node(book, task, 2)
}

// In a new node to the right of the task's step, n turns on.
fn in_node(book: &Book<'_>, task: u64, n: u64) -> Seat
    requires plain { Plain (state_of book.now) }
    requires held { task < (state_of book.now).tasks }
    requires small { n ≤ 2 }
    ensures value { result ≡ in_node (state_of book.now) task n }
{
    let here = leaf(book, task);
    Seat {
        node: Link {
            up: here.up,
            turn: here.turn + n,
        },
        leaf: Link {
            up: 2 * book.steps,
            turn: 0,
        },
    }
}

// To the right of the new task's node.
pub(crate) fn beside_step(book: &Book<'_>, task: u64) -> Seat
    requires plain { Plain (state_of book.now) }
    requires held { task < (state_of book.now).tasks }
    ensures value { result ≡ right_of (leaf_of (state_of book.now) task) }
{
    right_of(leaf(book, task))
}

// To the right of the node under which the task's step hangs, which is its innermost finish's.
pub(crate) fn beside_finish(book: &Book<'_>, task: u64) -> Seat
    requires plain { Plain (state_of book.now) }
    requires held { task < (state_of book.now).tasks }
    ensures value { result ≡ right_of ((state_of book.now).link (leaf_of (state_of book.now) task).up) }
{
    right_of(book.link(leaf(book, task).up))
}

// To the right of what hangs by a link, two turns on.
fn right_of(link: Link) -> Seat
    requires { link.turn ≤ 2 ^ 63 }
    ensures value { result ≡ right_of link }
{
    Seat {
        node: Link { up: 0, turn: 0 },
        leaf: Link {
            up: link.up,
            turn: link.turn + 2,
        },
    }
}
