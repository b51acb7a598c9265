// A book as it begins, whatever the memory held that it was lent: with step 0, task 0 and the outer finish.
ghost use Rattle.std.specs.Prelude.{◌≡◌, ◌+◌, ◌/◌, ◌^◌, ◌≤◌, length};
ghost use Rattle.order.specs.States.{state_of, Cleared};
ghost use Rattle.order.specs.Rows.{first_rows};

use super::Book;
use crate::record::{FinishRow, Link, OrderRecord, TaskRow};
use crate::rows::Rows;

// The records of number 0: step 0 hangs from place 0, and task 0 is on it, in finish 0.
fn first_rows() -> [OrderRecord; 4]
    ensures value { result ≡ first_rows }
{
    let root = OrderRecord::Link(Link { up: 0, turn: 0 });
    let task = OrderRecord::Task(TaskRow {
        running: true,
        current: 0,
        inner: 0,
        own: 0,
        home: 0,
    });
    let outer = OrderRecord::Finish(FinishRow {
        outer: 0,
        alive: 1,
        shut: 0,
    });
    [root, root, task, outer]
}

impl<'a> Book<'a> {
    pub(crate) fn new(records: &'a mut [OrderRecord]) -> Book<'a>
        ensures cleared { Cleared (1 + length records.old / 4) (state_of result) }
        ensures small { (state_of result).limit ≤ 2 ^ 62 }
    {
        Book {
            rows: Rows {
                first: first_rows(),
                lent: records,
            },
            steps: 1,
            tasks: 1,
            finishes: 1,
        }
    }

    // Starts afresh. The records that were lent stay as they are: none of them is held any more.
    pub(crate) fn clear(&mut self)
        ensures cleared { Cleared (state_of self.old).limit (state_of self.new) }
    {
        self.rows.first = first_rows();
        self.steps = 1;
        self.tasks = 1;
        self.finishes = 1;
    }
}
