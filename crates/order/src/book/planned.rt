// Calls of tasks by a plan: each is refused, or made with its new steps where the plan hangs them.
ghost use Rattle.std.specs.Prelude.{◌≡◌, ◌+◌};
ghost use Rattle.order.specs.Calls.{spawn_fault, open_fault, close_fault, end_fault, reply, moved};
ghost use Rattle.order.specs.States.{state_of, tasks_in, tasks_told, end_book};
ghost use Rattle.order.specs.Invariants.{Plain};
ghost use Rattle.order.specs.Plans.{spawn_by, open_by, close_by};

use super::Book;
use crate::fault::OrderFault;
use crate::plan::Planned;

impl<'a> Book<'a> {
    pub(crate) fn try_spawn<P: Planned>(&mut self, task: u64) -> Result<(u64, u64), OrderFault>
        requires { Plain (state_of self.old) }
        ensures answered { let m = tasks_in self.old in result ≡ reply (spawn_fault m task) (m.steps, m.steps + 1) }
        ensures kept { let st = state_of self.old in
            state_of self.new ≡ moved (spawn_fault (tasks_told st) task) st (spawn_by P.plan st task) }
    {
        self.check_spawn(task)?;
        let child = P::child_seat(self, task);
        let next = P::next_seat(self, task);
        Ok(self.spawn(task, child, next))
    }

    pub(crate) fn try_open<P: Planned>(&mut self, task: u64) -> Result<u64, OrderFault>
        requires { Plain (state_of self.old) }
        ensures answered { let m = tasks_in self.old in result ≡ reply (open_fault m task) m.steps }
        ensures kept { let st = state_of self.old in
            state_of self.new ≡ moved (open_fault (tasks_told st) task) st (open_by P.plan st task) }
    {
        self.check_open(task)?;
        let next = P::open_seat(self, task);
        Ok(self.open(task, next))
    }

    pub(crate) fn try_close<P: Planned>(&mut self, task: u64) -> Result<u64, OrderFault>
        requires { Plain (state_of self.old) }
        ensures answered { let m = tasks_in self.old in result ≡ reply (close_fault m task) m.steps }
        ensures kept { let st = state_of self.old in
            state_of self.new ≡ moved (close_fault (tasks_told st) task) st (close_by P.plan st task) }
    {
        self.check_close(task)?;
        let next = P::close_seat(self, task);
        Ok(self.close(task, next))
    }

    pub(crate) fn try_end(&mut self, task: u64) -> Result<u64, OrderFault>
        requires { Plain (state_of self.old) }
        ensures answered { let m = tasks_in self.old in result ≡ reply (end_fault m task) (m.task task).current }
        ensures kept { let st = state_of self.old in
            state_of self.new ≡ moved (end_fault (tasks_told st) task) st (end_book st task) }
    {
        self.check_end(task)?;
        Ok(self.end(task))
    }
}
