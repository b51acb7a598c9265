// A list of calls, and the room that a run has for them.
ghost use Rattle.std.specs.Prelude.{◌≡◌, IfOk, map, reverse, Some};
ghost use Rattle.model.specs.Mailboxes.{mailbox_cells};
ghost use Rattle.model.specs.Runs.{replies};
ghost use Rattle.run.specs.Replays.{calls_in, replies_in};
ghost use Rattle.runplay.specs.Rooms.{opening_in};
ghost use Rattle.runplay.specs.Logs.{scenario_shown};

use crate::log::{Log, ShownCalls};
use crate::pair::{JOB, Pair};
use crate::room::Room;
use model::{Call, Cell};
use std::alloc::{AllocError, Global};
use std::fmt;

#[derive(Clone, Copy, PartialEq, Eq, Debug)]
pub struct Scenario {
    pub room: Room,
    pub calls: &'static [Call<Cell>],
}

impl Scenario {
    // Makes the calls on a run over a pair of parts. What they are answered does not hang on the pair.
    pub fn play(&self, alloc: Global, pair: Pair) -> Result<Log, AllocError>
        ensures asked { IfOk result (λ log. calls_in log.asked.items ≡ reverse self.now.calls.now) }
        ensures answered { let o = opening_in JOB self.now.room in
            IfOk result (λ log. replies_in log.asked.items ≡ map Some (replies mailbox_cells o (reverse self.now.calls.now))) }
    {
        let mut log = Log::new(alloc, self.calls)?;
        pair.play(alloc, self.room, log.asked.as_mut_slice())?;
        Ok(log)
    }
}

impl fmt::Display for Scenario {
    ghost output = { scenario_shown };

    fn fmt<W: fmt::Write>(&self, f: &mut fmt::Formatter<W>) -> fmt::Result {
        write!(f, "{}: {}", self.room, ShownCalls(self.calls))
    }
}
