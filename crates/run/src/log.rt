// Lists of calls on a run.
ghost use Rattle.std.specs.Prelude.{◌≡◌, map, Some};
ghost use Rattle.model.specs.Mailboxes.{mailbox_cells};
ghost use Rattle.model.specs.Runs.{named, after_calls, replies, past_of, Upheld};
ghost use Rattle.run.specs.Runs.{opening_of};
ghost use Rattle.run.specs.Shown.{reply_shown};
ghost use Rattle.run.specs.Replays.{calls_in, replies_in, taken_in, ReplayedOn, Replayed};
ghost use Rattle.run.specs.Examples.{LogsShown, FaultsShown, WordsShown};
ghost use Rattle.run.specs.Laws.{CleanSettled, RacedLatest, RacedBeside, CleanAnyOrder, FirstNamed, TakenAgain};

use crate::fault::Refusal;
use crate::run::{Answer, Opening, Run};
use crate::verdict::Verdict;
use cells::Store;
use model::{Call, Cell, History, Stage};
use order::Keeper;
use std::fmt;

// What a call is answered.
#[derive(Clone, Copy, PartialEq, Eq, Debug)]
pub enum Reply {
    Answered(Answer),
    Sealed(Verdict),
    Refused(Refusal),
}

impl fmt::Display for Reply {
    ghost output = { reply_shown };

    fn fmt<W: fmt::Write>(&self, f: &mut fmt::Formatter<W>) -> fmt::Result {
        match self {
            Reply::Answered(answer) => write!(f, "{answer}"),
            Reply::Sealed(verdict) => write!(f, "{verdict}"),
            Reply::Refused(refusal) => write!(f, "{refusal}"),
        }
    }
}

// A call, and what it was answered once it was made.
#[derive(Clone, Copy, PartialEq, Eq, Debug)]
pub struct Asked {
    pub call: Call<Cell>,
    pub reply: Option<Reply>,
}

// Makes the calls in turn, and writes down what each is answered.
fn call_all<K: Keeper, S: Store<Key = Cell, Value = History>, N: Store<Key = u64, Value = u64>>(
    run: &mut Run<K, S, N>,
    log: &mut [Asked],
)
    ensures replayed { ReplayedOn K.meaning S.meaning N.meaning run.old log.old log.new run.new }
{
    for asked in log {
        asked.reply = Some(run.call(asked.call));
    }
}

// Opens a run and makes the calls in turn, whatever is refused; the stage that the run is then in. A call to seal is made as
// with a token of the job that it names.
pub fn replay<
    K: Keeper + Drop,
    S: Store<Key = Cell, Value = History> + Drop,
    N: Store<Key = u64, Value = u64> + Drop,
>(opening: Opening<K, S, N>, log: &mut [Asked]) -> Stage<Cell>
    ensures asked { calls_in log.new ≡ calls_in log.old }
    ensures answered { let o = opening_of K.meaning S.meaning N.meaning opening in
        replies_in log.new ≡ map Some (replies mailbox_cells o (calls_in log.old)) }
    ensures taken { let o = opening_of K.meaning S.meaning N.meaning opening in
        taken_in log.new ≡ past_of mailbox_cells o (calls_in log.old) }
    ensures stage { let o = opening_of K.meaning S.meaning N.meaning opening in
        result ≡ (after_calls mailbox_cells o (calls_in log.old)).stage }
    ensures clean_settled { CleanSettled (taken_in log.new) (named result) }
    ensures raced_latest { RacedLatest (opening_of K.meaning S.meaning N.meaning opening) (taken_in log.new) (named result) }
    ensures raced_beside { RacedBeside (taken_in log.new) (named result) }
    ensures clean_any_order { CleanAnyOrder (opening_of K.meaning S.meaning N.meaning opening) (taken_in log.new) (named result) }
    ensures first_named { FirstNamed (taken_in log.new) (named result) }
    ensures upheld { let o = opening_of K.meaning S.meaning N.meaning opening in Upheld mailbox_cells o (calls_in log.old) }
{
    let (mut run, token) = opening.open();
    call_all(&mut run, log);
    token.withdraw();
    run.stage()
}

// Replays one list of calls on a run, and another on a second run, over any other parts: if the first run is clean, and the calls of
// the second feed the events that the first has taken, in any legal order, under the same limits, then each of them is taken with
// no race, and the second run is clean.
pub fn replay_again<
    K: Keeper + Drop,
    S: Store<Key = Cell, Value = History> + Drop,
    N: Store<Key = u64, Value = u64> + Drop,
    L: Keeper + Drop,
    T: Store<Key = Cell, Value = History> + Drop,
    M: Store<Key = u64, Value = u64> + Drop,
>(
    first: Opening<K, S, N>,
    log: &mut [Asked],
    second: Opening<L, T, M>,
    again: &mut [Asked],
) -> (Stage<Cell>, Stage<Cell>)
    ensures first { Replayed (opening_of K.meaning S.meaning N.meaning first) (calls_in log.old) log.new result.0 }
    ensures second { Replayed (opening_of L.meaning T.meaning M.meaning second) (calls_in again.old) again.new result.1 }
    ensures clean_any_order { (opening_of K.meaning S.meaning N.meaning first).limits ≡ (opening_of L.meaning T.meaning M.meaning second).limits
        → TakenAgain (taken_in log.new) (named result.0) again.old again.new (named result.1) }
{
    (replay(first, log), replay(second, again))
}

// Examples, by computation. It computes nothing: its contract names them.
pub fn examples_hold()
    ensures logs { LogsShown }
    ensures faults { FaultsShown }
    ensures words { WordsShown }
{}
