// An order keeper that searches the graph of steps: the edges that lead from one step to the next.
ghost use Rattle.std.specs.Prelude.{◌≡◌, ◌+◌, ◌/◌, length};
ghost use Rattle.order.specs.Graphs.{GraphSound, graph_plan};

mod search;
mod seats;

use crate::book::Book;
use crate::keeper::HappensBefore;
use crate::plan::Planned;
use crate::record::{OrderRecord, Seat};
use crate::step_keeper::StepKeeper;

// Steps hang from the steps that they come from.
pub struct Graph;

impl Planned for Graph {
    ghost plan = { graph_plan };

    ghost Sound = { GraphSound };

    fn child_seat(book: &Book<'_>, task: u64) -> Seat {
        seats::child(book, task)
    }

    fn next_seat(book: &Book<'_>, task: u64) -> Seat {
        seats::next(book, task, book.steps + 1)
    }

    fn open_seat(book: &Book<'_>, task: u64) -> Seat {
        seats::next(book, task, book.steps)
    }

    fn close_seat(book: &Book<'_>, task: u64) -> Seat {
        seats::next(book, task, book.steps)
    }

    fn before(book: &Book<'_>, a: u64, b: u64) -> bool {
        book.holds(a, b) && search::searched(book, a, b)
    }

    fn earlier(book: &Book<'_>, a: u64, b: u64) -> bool {
        if !book.holds(a, b) {
            return false;
        }
        book.climb(2 * a + 1, 2 * b + 1).is_left()
    }
}

// The order of a job's steps, as a graph, over lent records.
pub type GraphKeeper<'a> = StepKeeper<'a, Graph>;

impl<'a> GraphKeeper<'a> {
    ghost use Rattle.model.specs.Orders.{emptied};

    // A keeper of 1 step, and one more for every four records.
    pub fn new(records: &'a mut [OrderRecord]) -> GraphKeeper<'a>
        ensures emptied { ⟦<GraphKeeper<'a> as HappensBefore>⟧.meaning result ≡ emptied (1 + length records.old / 4) }
    {
        StepKeeper::over(records)
    }
}
