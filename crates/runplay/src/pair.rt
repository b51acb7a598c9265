// An order keeper and a cell store. The names of tasks are in a table, whichever the pair is.
ghost use Rattle.std.specs.Prelude.{◌≡◌, IfOk, OnOk, OnErr, map, Some};
ghost use Rattle.model.specs.Mailboxes.{mailbox_cells};
ghost use Rattle.model.specs.Runs.{named, after_calls, replies};
ghost use Rattle.run.specs.Replays.{calls_in, replies_in, taken_in};
ghost use Rattle.run.specs.Laws.{CleanSettled, RacedBeside, CleanAnyOrder};
ghost use Rattle.runplay.specs.Rooms.{opening_in, pair_text};
ghost use Rattle.runplay.specs.Tokens.{exchanged};

use crate::memory::Memory;
use crate::room::Room;
use crate::tokens::{Exchange, spend_tokens};
use model::{Cell, Stage};
use run::{Asked, replay};
use std::alloc::{AllocError, Global};
use std::fmt;

// The job of the runs, and another one.
pub const JOB: u64 = 7;

pub const OTHER_JOB: u64 = 8;

#[derive(Clone, Copy, PartialEq, Eq, Debug)]
pub enum Pair {
    TreeTable,
    TreeSearch,
    GraphTable,
    GraphSearch,
}

impl Pair {
    pub const ALL: [Pair; 4] = [
        Pair::TreeTable,
        Pair::TreeSearch,
        Pair::GraphTable,
        Pair::GraphSearch,
    ];

    // Makes the calls of a log on a new run in the room. Each is answered what the rules say, and the laws hold of the events that
    // are taken and of the race that is named, if one is. None of this hangs on the pair.
    pub fn play(
        self,
        alloc: Global,
        room: Room,
        log: &mut [Asked],
    ) -> Result<Stage<Cell>, AllocError>
        ensures asked { OnOk result (calls_in log.new ≡ calls_in log.old) }
        ensures answered { let o = opening_in JOB room in
            OnOk result (replies_in log.new ≡ map Some (replies mailbox_cells o (calls_in log.old))) }
        ensures stage { let o = opening_in JOB room in
            IfOk result (λ stage. stage ≡ (after_calls mailbox_cells o (calls_in log.old)).stage) }
        ensures clean_settled { IfOk result (λ stage. CleanSettled (taken_in log.new) (named stage)) }
        ensures raced_beside { IfOk result (λ stage. RacedBeside (taken_in log.new) (named stage)) }
        ensures clean_any_order { let o = opening_in JOB room in
            IfOk result (λ stage. CleanAnyOrder o (taken_in log.new) (named stage)) }
        ensures unchanged { OnErr result (log.new ≡ log.old) }
    {
        let mut memory = Memory::new(alloc, room)?;
        Ok(match self {
            Pair::TreeTable => replay(memory.tree_table(JOB, room), log),
            Pair::TreeSearch => replay(memory.tree_search(JOB, room), log),
            Pair::GraphTable => replay(memory.graph_table(JOB, room), log),
            Pair::GraphSearch => replay(memory.graph_search(JOB, room), log),
        })
    }

    // Spends the tokens of two runs in the room, which hangs on the pair as little.
    pub fn spend_tokens(self, alloc: Global, room: Room) -> Result<Exchange, AllocError>
        ensures { IfOk result (λ e. e ≡ exchanged JOB OTHER_JOB) }
    {
        let mut first = Memory::new(alloc, room)?;
        let mut second = Memory::new(alloc, room)?;
        let (first, second) = (&mut first, &mut second);
        Ok(match self {
            Pair::TreeTable => spend_tokens(
                first.tree_table(JOB, room),
                second.tree_table(OTHER_JOB, room),
            ),
            Pair::TreeSearch => spend_tokens(
                first.tree_search(JOB, room),
                second.tree_search(OTHER_JOB, room),
            ),
            Pair::GraphTable => spend_tokens(
                first.graph_table(JOB, room),
                second.graph_table(OTHER_JOB, room),
            ),
            Pair::GraphSearch => spend_tokens(
                first.graph_search(JOB, room),
                second.graph_search(OTHER_JOB, room),
            ),
        })
    }
}

impl fmt::Display for Pair {
    ghost output = { λ pair. Some (pair_text pair) };

    fn fmt<W: fmt::Write>(&self, f: &mut fmt::Formatter<W>) -> fmt::Result {
        f.write_str(match self {
            Pair::TreeTable => "tree, table",
            Pair::TreeSearch => "tree, search tree",
            Pair::GraphTable => "graph, table",
            Pair::GraphSearch => "graph, search tree",
        })
    }
}
