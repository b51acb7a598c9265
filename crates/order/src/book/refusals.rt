// Whether a task may make a call.
ghost use Rattle.std.specs.Prelude.{◌≡◌, ◌≤◌, [], ◌∷◌, IsTrue};
ghost use Rattle.model.specs.Lists.{head_or};
ghost use Rattle.model.specs.Orders.{gone, few, has_own, lived};
ghost use Rattle.order.specs.Calls.{first, reply, spawn_fault, open_fault, close_fault, end_fault, stage_of};
ghost use Rattle.order.specs.States.{state_of, tasks_in};
ghost use Rattle.order.specs.Invariants.{Plain};

use super::Book;
use crate::fault::OrderFault;
use crate::keeper::TaskStage;

impl<'a> Book<'a> {
    // Whether the task is held and runs.
    pub(crate) fn runs(&self, task: u64) -> bool
        requires { Plain (state_of self.now) }
        ensures value { result ≡ ((tasks_in self.now).task task).running }
    {
        task < self.tasks && self.task(task).running
    }

    pub(crate) fn stage(&self, task: u64) -> TaskStage
        requires { Plain (state_of self.now) }
        ensures value { result ≡ stage_of ((tasks_in self.now).task task) }
    {
        if self.runs(task) {
            TaskStage::Running
        } else {
            TaskStage::Ended
        }
    }

    // The step that the task is on, or ended on; 0 for one that is not held.
    pub(crate) fn current(&self, task: u64) -> u64
        requires { Plain (state_of self.now) }
        ensures value { result ≡ ((tasks_in self.now).task task).current }
    {
        if task < self.tasks {
            self.task(task).current
        } else {
            0
        }
    }

    fn check_runs(&self, task: u64) -> Result<(), OrderFault>
        requires { Plain (state_of self.now) }
        ensures answered { result ≡ reply (first ((gone (tasks_in self.now) task, OrderFault.TaskEnded) ∷ [])) tt }
    {
        if self.runs(task) {
            Ok(())
        } else {
            Err(OrderFault::TaskEnded)
        }
    }

    fn check_room(&self, n: u64) -> Result<(), OrderFault>
        requires plain { Plain (state_of self.now) }
        requires small { n ≤ 2 }
        ensures answered { result ≡ reply (first ((few (tasks_in self.now) n, OrderFault.NoStepFree) ∷ [])) tt }
    {
        if self.steps + n > self.limit() {
            Err(OrderFault::NoStepFree)
        } else {
            Ok(())
        }
    }

    // Whether the running task has a finish of its own open.
    fn owns(&self, task: u64) -> bool
        requires plain { Plain (state_of self.now) }
        requires runs { IsTrue ((tasks_in self.now).task task).running }
        ensures value { result ≡ has_own ((tasks_in self.now).task task).finishes }
    {
        self.task(task).own > 0
    }

    // Whether a task lives in the innermost finish of the running task.
    fn awaits(&self, task: u64) -> bool
        requires plain { Plain (state_of self.now) }
        requires runs { IsTrue ((tasks_in self.now).task task).running }
        ensures value { let m = tasks_in self.now in result ≡ lived m (head_or (m.task task).finishes 0) }
    {
        self.finish(self.task(task).inner).alive > 0
    }

    // Whether the task may spawn, open, close or end, or why not: the first fault that fits.

    pub(crate) fn check_spawn(&self, task: u64) -> Result<(), OrderFault>
        requires { Plain (state_of self.now) }
        ensures answered { result ≡ reply (spawn_fault (tasks_in self.now) task) tt }
    {
        self.check_runs(task)?;
        self.check_room(2)
    }

    pub(crate) fn check_open(&self, task: u64) -> Result<(), OrderFault>
        requires { Plain (state_of self.now) }
        ensures answered { result ≡ reply (open_fault (tasks_in self.now) task) tt }
    {
        self.check_runs(task)?;
        self.check_room(1)
    }

    pub(crate) fn check_close(&self, task: u64) -> Result<(), OrderFault>
        requires { Plain (state_of self.now) }
        ensures answered { result ≡ reply (close_fault (tasks_in self.now) task) tt }
    {
        self.check_runs(task)?;
        if !self.owns(task) {
            Err(OrderFault::NoFinishOpen)
        } else if self.awaits(task) {
            Err(OrderFault::FinishNotEmpty)
        } else {
            self.check_room(1)
        }
    }

    pub(crate) fn check_end(&self, task: u64) -> Result<(), OrderFault>
        requires { Plain (state_of self.now) }
        ensures answered { result ≡ reply (end_fault (tasks_in self.now) task) tt }
    {
        self.check_runs(task)?;
        if self.owns(task) {
            Err(OrderFault::FinishOpen)
        } else {
            Ok(())
        }
    }
}
