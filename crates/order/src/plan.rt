// How an order keeper hangs new steps in its book, and tells from the book how two steps stand.
ghost use Rattle.std.specs.Prelude.{◌≡◌, ◌<◌};
ghost use Rattle.order.specs.States.{State, state_of};
ghost use Rattle.order.specs.Invariants.{Plain};
ghost use Rattle.order.specs.Plans.{Plan, order_by};

use crate::book::Book;
use crate::record::Seat;

pub trait Planned {
    // Where new steps hang, and how steps stand.
    ghost plan: { Plan };

    // What holds of the book from call to call.
    ghost Sound: { State → Type 0 };

    // Where the first step of a new task hangs, after a spawn by the task.
    fn child_seat(book: &Book<'_>, task: u64) -> Seat
        requires plain { Plain (state_of book.now) }
        requires held { task < (state_of book.now).tasks }
        ensures value { result ≡ plan.child_seat (state_of book.now) task };

    // Where the task's next step hangs, after a spawn.
    fn next_seat(book: &Book<'_>, task: u64) -> Seat
        requires plain { Plain (state_of book.now) }
        requires held { task < (state_of book.now).tasks }
        ensures value { result ≡ plan.next_seat (state_of book.now) task };

    // Where the task's next step hangs, after an open.
    fn open_seat(book: &Book<'_>, task: u64) -> Seat
        requires plain { Plain (state_of book.now) }
        requires held { task < (state_of book.now).tasks }
        ensures value { result ≡ plan.open_seat (state_of book.now) task };

    // Where the task's next step hangs, after a close.
    fn close_seat(book: &Book<'_>, task: u64) -> Seat
        requires plain { Plain (state_of book.now) }
        requires held { task < (state_of book.now).tasks }
        ensures value { result ≡ plan.close_seat (state_of book.now) task };

    // Whether the step a is before the step b; no, if one of them is not held.
    fn before(book: &Book<'_>, a: u64, b: u64) -> bool
        requires plain { Plain (state_of book.now) }
        requires sound { ∥ Sound (state_of book.now) ∥₁ }
        ensures told { result ≡ (order_by plan (state_of book.now)).before a b };

    // Whether a is earlier than b; no, if one of them is not held.
    fn earlier(book: &Book<'_>, a: u64, b: u64) -> bool
        requires plain { Plain (state_of book.now) }
        requires sound { ∥ Sound (state_of book.now) ∥₁ }
        ensures told { result ≡ (order_by plan (state_of book.now)).earlier a b };
}
