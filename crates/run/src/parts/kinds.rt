// What each kind of event makes of the parts of a run.
ghost use Rattle.std.specs.Prelude.{◌≡◌, ◌+◌, ℕ, Some, None};
ghost use Rattle.model.specs.declared.Event.TheVariants.{Spawn, End, Open, Close, Read, Write};
ghost use Rattle.model.specs.Parts.{judged, judged_kind, task_number};
ghost use Rattle.model.specs.Mailboxes.{mailbox_cells};
ghost use Rattle.run.specs.Parting.{parts_in, told, acted, admitted, access_of, taken_by};

use super::Parts;
use crate::access::{Access, history_in};
use crate::fault::RunFault;
use cells::Store;
use model::{Cell, Event, History, Race, RaceKind};
use order::{Keeper, OrderFault, TaskStage};

impl<K: Keeper, S: Store<Key = Cell, Value = History>, N: Store<Key = u64, Value = u64>> Parts<
    K,
    S,
    N,
> {
    // The keeper's number of a task.
    fn number_of(&self, task: u64) -> Option<u64>
        ensures { result ≡ task_number (parts_in K.meaning S.meaning N.meaning self.now) task }
    {
        if task == 0 {
            Some(0)
        } else {
            self.names.look(task)
        }
    }

    // The keeper's number of the task that does an event, if the run may take one more, and knows the task.
    fn admit(&self, limit: u64, event: Event<Cell>) -> Result<u64, RunFault>
        ensures { result ≡ admitted limit (parts_in K.meaning S.meaning N.meaning self.now) event }
    {
        if self.taken >= limit {
            return Err(RunFault::Full);
        }
        if !event.numbers_fit() {
            return Err(RunFault::TooLarge);
        }
        self.number_of(event.task()).ok_or(RunFault::UnknownTask)
    }

    // A new task, with a name that was never given.
    fn spawn(&mut self, number: u64, child: u64) -> Result<Option<Race<Cell>>, RunFault>
        ensures answered { told result ≡ judged_kind (parts_in K.meaning S.meaning N.meaning self.old) number (Spawn number child) }
        ensures kept { let p = parts_in K.meaning S.meaning N.meaning self.old in
            parts_in K.meaning S.meaning N.meaning self.new ≡ acted p number (Spawn number child) (judged_kind p number (Spawn number child)) }
    {
        if self.number_of(child).is_some() {
            return Err(RunFault::NameTaken);
        }
        if self.names.is_full() {
            return Err(RunFault::NoName);
        }
        let made = self.keeper.tasks();
        self.keeper.spawn(number)?;
        self.names.put(child, made)?;
        Ok(None)
    }

    // An access of a cell by the task with this number, as the next event, if the task has not ended.
    fn access(&self, number: u64, cell: Cell) -> Result<Access, OrderFault>
        ensures { result ≡ access_of (parts_in K.meaning S.meaning N.meaning self.now) number cell }
    {
        match self.keeper.stage(number) {
            TaskStage::Running => Ok(Access {
                step: self.keeper.current(number),
                place: self.taken,
                cell,
            }),
            TaskStage::Ended => Err(OrderFault::TaskEnded),
        }
    }

    // A read: it is judged by the last write of its cell, and then kept with the cell's reads.
    fn read(&mut self, number: u64, cell: Cell) -> Result<Option<Race<Cell>>, RunFault>
        ensures answered { told result ≡ judged_kind (parts_in K.meaning S.meaning N.meaning self.old) number (Read number cell) }
        ensures kept { let p = parts_in K.meaning S.meaning N.meaning self.old in
            parts_in K.meaning S.meaning N.meaning self.new ≡ acted p number (Read number cell) (judged_kind p number (Read number cell)) }
    {
        let access = self.access(number, cell)?;
        let history = history_in(&self.store, cell);
        let race = access.race(&self.keeper, RaceKind::WriteRead, history.write);
        if race.is_none() {
            self.store
                .put(cell, access.after_read(&self.keeper, history))?;
        }
        Ok(race)
    }

    // A write: it is judged by all that is kept of its cell, and takes the place of it.
    fn write(&mut self, number: u64, cell: Cell) -> Result<Option<Race<Cell>>, RunFault>
        ensures answered { told result ≡ judged_kind (parts_in K.meaning S.meaning N.meaning self.old) number (Write number cell) }
        ensures kept { let p = parts_in K.meaning S.meaning N.meaning self.old in
            parts_in K.meaning S.meaning N.meaning self.new ≡ acted p number (Write number cell) (judged_kind p number (Write number cell)) }
    {
        let access = self.access(number, cell)?;
        let race = access.write_race(&self.keeper, history_in(&self.store, cell));
        if race.is_none() {
            self.store.put(cell, access.after_write())?;
        }
        Ok(race)
    }

    // An event of the task with this number, by its kind. In the contracts of its parts the number stands where an event has the task's
    // name: the name plays no part any more.
    fn act(&mut self, number: u64, event: Event<Cell>) -> Result<Option<Race<Cell>>, RunFault>
        ensures answered { told result ≡ judged_kind (parts_in K.meaning S.meaning N.meaning self.old) number event }
        ensures kept { let p = parts_in K.meaning S.meaning N.meaning self.old in
            parts_in K.meaning S.meaning N.meaning self.new ≡ acted p number event (judged_kind p number event) }
    {
        match event {
            Event::Spawn { child, .. } => return self.spawn(number, child),
            Event::Read { cell, .. } => return self.read(number, cell),
            Event::Write { cell, .. } => return self.write(number, cell),
            Event::End { .. } => self.keeper.end(number)?,
            Event::Open { .. } => self.keeper.open(number)?,
            Event::Close { .. } => self.keeper.close(number)?,
        };
        Ok(None)
    }

    // The next event, counted if it is taken.
    #[tactic(auto, using(crate::proofs::Admitting::judged_fault, crate::proofs::Admitting::judged_number, crate::proofs::Admitting::taken_number))]
    pub(crate) fn take(
        &mut self,
        limit: u64,
        event: Event<Cell>,
    ) -> Result<Option<Race<Cell>>, RunFault>
        ensures answered { told result ≡ judged mailbox_cells limit (parts_in K.meaning S.meaning N.meaning self.old) event }
        ensures kept { let p = parts_in K.meaning S.meaning N.meaning self.old in
            parts_in K.meaning S.meaning N.meaning self.new ≡ taken_by p event (judged mailbox_cells limit p event) }
    {
        let number = self.admit(limit, event)?;
        let race = self.act(number, event)?;
        self.taken += 1;
        Ok(race)
    }
}
