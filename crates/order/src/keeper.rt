// What an order keeper is asked, and what keeps it up to date.
ghost use Rattle.std.specs.Prelude.{◌≡◌, ◌+◌};
ghost use Rattle.model.specs.Orders.{Order, emptied, spawned, opened, closed, done};
ghost use Rattle.order.specs.Calls.{spawn_fault, open_fault, close_fault, end_fault, reply, moved, stage_of};

use crate::fault::OrderFault;

// Whether a task can still do something.
#[derive(Clone, Copy, PartialEq, Eq, Debug)]
pub enum TaskStage {
    Running,
    Ended,
}

// The asking half: how two steps stand. Steps are numbered from 0 as they are made. To a step that is not held, and to a step
// against itself, the answer is no.
pub trait HappensBefore {
    // The order that is kept.
    ghost meaning: { Self → Order };

    // Whether the step a is before the step b, whatever the scheduler does.
    fn before(&self, a: u64, b: u64) -> bool
        ensures told { result ≡ (meaning self.now).before a b };

    // Whether a is earlier than b in serial order.
    fn earlier(&self, a: u64, b: u64) -> bool
        ensures told { result ≡ (meaning self.now).earlier a b };
}

// The keeping half: one call for each thing that tasks do. A refused call changes nothing. Tasks and finishes are numbered from 0
// as they are made, like steps.
pub trait Keeper: HappensBefore {
    // Starts afresh: step 0, which task 0 is on, in the outer finish.
    fn empty(&mut self)
        ensures kept { Self.meaning self.new ≡ emptied (Self.meaning self.old).limit };

    // The task makes a new task: the first step of this, and the next of its own.
    fn spawn(&mut self, task: u64) -> Result<(u64, u64), OrderFault>
        ensures answered { let m = Self.meaning self.old in result ≡ reply (spawn_fault m task) (m.steps, m.steps + 1) }
        ensures kept { let m = Self.meaning self.old in Self.meaning self.new ≡ moved (spawn_fault m task) m (spawned m task) };

    // The task opens a finish: its next step.
    fn open(&mut self, task: u64) -> Result<u64, OrderFault>
        ensures answered { let m = Self.meaning self.old in result ≡ reply (open_fault m task) m.steps }
        ensures kept { let m = Self.meaning self.old in Self.meaning self.new ≡ moved (open_fault m task) m (opened m task) };

    // The task closes the finish that it opened last: its next step.
    fn close(&mut self, task: u64) -> Result<u64, OrderFault>
        ensures answered { let m = Self.meaning self.old in result ≡ reply (close_fault m task) m.steps }
        ensures kept { let m = Self.meaning self.old in Self.meaning self.new ≡ moved (close_fault m task) m (closed m task) };

    // The task ends: its last step.
    fn end(&mut self, task: u64) -> Result<u64, OrderFault>
        ensures answered { let m = Self.meaning self.old in result ≡ reply (end_fault m task) (m.task task).current }
        ensures kept { let m = Self.meaning self.old in Self.meaning self.new ≡ moved (end_fault m task) m (done m task) };

    // How many tasks are held: the number that the next one gets.
    fn tasks(&self) -> u64
        ensures value { result ≡ (Self.meaning self.now).tasks };

    // Whether a task runs; one that is not held counts as ended.
    fn stage(&self, task: u64) -> TaskStage
        ensures value { result ≡ stage_of ((Self.meaning self.now).task task) };

    // The step that a task is on, or was on when it ended; 0 for one that is not held.
    fn current(&self, task: u64) -> u64
        ensures value { result ≡ ((Self.meaning self.now).task task).current };
}
