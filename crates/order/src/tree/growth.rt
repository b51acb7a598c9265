// The tree that a list of calls grows.
ghost use Rattle.std.specs.Prelude.{◌≡◌};
ghost use Rattle.order.specs.States.{state_of};
ghost use Rattle.order.specs.Invariants.{Plain};
ghost use Rattle.order.specs.Grown.{GrewBy, book_after_call};

use super::Tree;
use crate::book::Book;
use crate::replay::OrderCall;

// Makes the call, unless it is refused.
fn make(book: &mut Book<'_>, call: OrderCall)
    requires { Plain (state_of book.old) }
    ensures kept { state_of book.new ≡ book_after_call (state_of book.old) call }
{
    match call {
        OrderCall::Spawn { task } => {
            let _ = book.try_spawn::<Tree>(task);
        }
        OrderCall::Open { task } => {
            let _ = book.try_open::<Tree>(task);
        }
        OrderCall::Close { task } => {
            let _ = book.try_close::<Tree>(task);
        }
        OrderCall::End { task } => {
            let _ = book.try_end(task);
        }
    }
}

// Starts afresh and makes the calls in turn, whatever is refused.
pub(crate) fn regrow(book: &mut Book<'_>, calls: &[OrderCall])
    requires { Plain (state_of book.old) }
    ensures grew { GrewBy (state_of book.new) (state_of book.old).limit calls.now }
{
    book.clear();
    for call in calls {
        make(book, *call);
    }
}
