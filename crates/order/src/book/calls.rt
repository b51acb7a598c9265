// What the calls of tasks make of a book: new steps, tasks and finishes.
ghost use Rattle.std.specs.Prelude.{◌≡◌, ◌+◌, ◌<◌, ◌≤◌};
ghost use Rattle.order.specs.States.{state_of, Room, seated, spawn_book, open_book, close_book, end_book};
ghost use Rattle.order.specs.Invariants.{Plain};

use super::Book;
use crate::record::{FinishRow, Seat, TaskRow};

impl<'a> Book<'a> {
    // Gives the step x its seat.
    fn seat(&mut self, x: u64, seat: Seat)
        requires { Room (state_of self.old) x }
        ensures seated { state_of self.new ≡ record (state_of self.old) { link = seated (state_of self.old).link x seat } }
    {
        self.hang(2 * x, seat.node);
        self.hang(2 * x + 1, seat.leaf);
    }

    // A new task and its first step; the spawner's next step.
    pub(crate) fn spawn(&mut self, task: u64, child: Seat, next: Seat) -> (u64, u64)
        requires plain { Plain (state_of self.old) }
        requires held { task < (state_of self.old).tasks }
        requires room { (state_of self.old).steps + 2 ≤ (state_of self.old).limit }
        ensures answered { result ≡ ((state_of self.old).steps, (state_of self.old).steps + 1) }
        ensures kept { state_of self.new ≡ spawn_book (state_of self.old) task child next }
    {
        let step = self.steps;
        let spawner = self.task(task);
        let home = self.finish(spawner.inner);
        self.seat(step, child);
        self.seat(step + 1, next);
        self.set_task(
            task,
            TaskRow {
                current: step + 1,
                ..spawner
            },
        );
        self.set_task(
            self.tasks,
            TaskRow {
                running: true,
                current: step,
                inner: spawner.inner,
                own: 0,
                home: spawner.inner,
            },
        );
        self.set_finish(
            spawner.inner,
            FinishRow {
                alive: home.alive + 1,
                ..home
            },
        );
        self.steps += 2;
        self.tasks += 1;
        (step, step + 1)
    }

    // A new finish, and the task's next step.
    pub(crate) fn open(&mut self, task: u64, next: Seat) -> u64
        requires plain { Plain (state_of self.old) }
        requires held { task < (state_of self.old).tasks }
        requires room { (state_of self.old).steps + 1 ≤ (state_of self.old).limit }
        ensures answered { result ≡ (state_of self.old).steps }
        ensures kept { state_of self.new ≡ open_book (state_of self.old) task next }
    {
        let step = self.steps;
        let finish = self.finishes;
        let opener = self.task(task);
        self.seat(step, next);
        self.set_task(
            task,
            TaskRow {
                current: step,
                inner: finish,
                own: opener.own + 1,
                ..opener
            },
        );
        self.set_finish(
            finish,
            FinishRow {
                outer: opener.inner,
                alive: 0,
                shut: 0,
            },
        );
        self.steps += 1;
        self.finishes += 1;
        step
    }

    // The task's next step, which closes its innermost finish.
    pub(crate) fn close(&mut self, task: u64, next: Seat) -> u64
        requires plain { Plain (state_of self.old) }
        requires held { task < (state_of self.old).tasks }
        requires owns { 0 < ((state_of self.old).task task).own }
        requires room { (state_of self.old).steps + 1 ≤ (state_of self.old).limit }
        ensures answered { result ≡ (state_of self.old).steps }
        ensures kept { state_of self.new ≡ close_book (state_of self.old) task next }
    {
        let step = self.steps;
        let closer = self.task(task);
        let finish = self.finish(closer.inner);
        self.seat(step, next);
        self.set_task(
            task,
            TaskRow {
                current: step,
                inner: finish.outer,
                own: closer.own - 1,
                ..closer
            },
        );
        self.set_finish(
            closer.inner,
            FinishRow {
                shut: step,
                ..finish
            },
        );
        self.steps += 1;
        step
    }

    // The task's last step. One task fewer lives in its finish.
    pub(crate) fn end(&mut self, task: u64) -> u64
        requires plain { Plain (state_of self.old) }
        requires held { task < (state_of self.old).tasks }
        requires alive { 0 < ((state_of self.old).finish ((state_of self.old).task task).inner).alive }
        ensures answered { result ≡ ((state_of self.old).task task).current }
        ensures kept { state_of self.new ≡ end_book (state_of self.old) task }
    {
        let ended = self.task(task);
        let home = self.finish(ended.inner);
        self.set_task(
            task,
            TaskRow {
                running: false,
                ..ended
            },
        );
        self.set_finish(
            ended.inner,
            FinishRow {
                alive: home.alive - 1,
                ..home
            },
        );
        ended.current
    }
}
