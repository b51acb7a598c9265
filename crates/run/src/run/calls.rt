// The calls on a run. One that is refused changes nothing.
ghost use Rattle.std.specs.Prelude.{◌≡◌};
ghost use Rattle.model.specs.declared.Event.TheVariants.{Spawn, End, Open, Close, Read, Write};
ghost use Rattle.model.specs.declared.Call.TheVariants.{Feed, Seal};
ghost use Rattle.run.specs.Tokens.{GivenBack};
ghost use Rattle.run.specs.Runs.{Answered, held_in, fed, sealed};
ghost use Rattle.run.specs.Lawful.{Lawful, StageTold, CountTold};

use super::{Answer, Run};
use crate::fault::Refusal;
use crate::token::Token;
use crate::verdict::Verdict;
use cells::Store;
use model::{Cell, Event, History, Stage};
use order::Keeper;

impl<K: Keeper, S: Store<Key = Cell, Value = History>, N: Store<Key = u64, Value = u64>> Run<
    K,
    S,
    N,
> {
    // The next event.
    pub fn take(&mut self, event: Event<Cell>) -> Result<Answer, Refusal>
        ensures answered { Answered K.meaning S.meaning N.meaning self.old (Feed event) (fed result) self.new }
        ensures lawful { Lawful K.meaning S.meaning N.meaning self.old (Feed event) (fed result) self.new }
    {
        self.take_placed(event)
    }

    // The task makes a new one.
    pub fn spawn(&mut self, task: u64, child: u64) -> Result<Answer, Refusal>
        ensures answered { Answered K.meaning S.meaning N.meaning self.old (Feed (Spawn task child)) (fed result) self.new }
        ensures lawful { Lawful K.meaning S.meaning N.meaning self.old (Feed (Spawn task child)) (fed result) self.new }
    {
        self.take(Event::Spawn { task, child })
    }

    // The task is done.
    pub fn end(&mut self, task: u64) -> Result<Answer, Refusal>
        ensures answered { Answered K.meaning S.meaning N.meaning self.old (Feed (End task)) (fed result) self.new }
        ensures lawful { Lawful K.meaning S.meaning N.meaning self.old (Feed (End task)) (fed result) self.new }
    {
        self.take(Event::End { task })
    }

    // The task opens a finish.
    pub fn open_finish(&mut self, task: u64) -> Result<Answer, Refusal>
        ensures answered { Answered K.meaning S.meaning N.meaning self.old (Feed (Open task)) (fed result) self.new }
        ensures lawful { Lawful K.meaning S.meaning N.meaning self.old (Feed (Open task)) (fed result) self.new }
    {
        self.take(Event::Open { task })
    }

    // The task closes the finish that it opened last.
    pub fn close_finish(&mut self, task: u64) -> Result<Answer, Refusal>
        ensures answered { Answered K.meaning S.meaning N.meaning self.old (Feed (Close task)) (fed result) self.new }
        ensures lawful { Lawful K.meaning S.meaning N.meaning self.old (Feed (Close task)) (fed result) self.new }
    {
        self.take(Event::Close { task })
    }

    // The task reads a cell.
    pub fn read(&mut self, task: u64, cell: Cell) -> Result<Answer, Refusal>
        ensures answered { Answered K.meaning S.meaning N.meaning self.old (Feed (Read task cell)) (fed result) self.new }
        ensures lawful { Lawful K.meaning S.meaning N.meaning self.old (Feed (Read task cell)) (fed result) self.new }
    {
        self.take(Event::Read { task, cell })
    }

    // The task writes a cell.
    pub fn write(&mut self, task: u64, cell: Cell) -> Result<Answer, Refusal>
        ensures answered { Answered K.meaning S.meaning N.meaning self.old (Feed (Write task cell)) (fed result) self.new }
        ensures lawful { Lawful K.meaning S.meaning N.meaning self.old (Feed (Write task cell)) (fed result) self.new }
    {
        self.take(Event::Write { task, cell })
    }

    // Seals the run and spends the token, or hands it back.
    pub fn seal(&mut self, token: Token) -> Result<Verdict, (Refusal, Token)>
        ensures answered { Answered K.meaning S.meaning N.meaning self.old (Seal token.job) (sealed result) self.new }
        ensures lawful { Lawful K.meaning S.meaning N.meaning self.old (Seal token.job) (sealed result) self.new }
        ensures handed_back { GivenBack token result }
    {
        self.seal_placed(token)
    }

    // The stage that the run is in.
    pub fn stage(&self) -> Stage<Cell>
        ensures value { result ≡ (held_in K.meaning S.meaning N.meaning self.now).stage }
        ensures lawful { StageTold K.meaning S.meaning N.meaning self.now result }
    {
        self.stage
    }

    // How many events it has taken.
    pub fn taken(&self) -> u64
        ensures value { result ≡ (held_in K.meaning S.meaning N.meaning self.now).parts.count }
        ensures lawful { CountTold K.meaning S.meaning N.meaning self.now result }
    {
        self.parts.taken
    }
}
