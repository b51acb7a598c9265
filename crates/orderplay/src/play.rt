// Lists of calls, played on any keeper.
ghost use Rattle.std.specs.Prelude.{◌≡◌, ◌+◌, ◌/◌, length};
ghost use Rattle.model.specs.Orders.{emptied};
ghost use Rattle.order.specs.Replays.{after_calls};
ghost use Rattle.orderplay.specs.Plays.{last_after, calls_told, row_told, rows_told, asked, played};

use crate::tally::Tally;
use order::{
    GraphKeeper, HappensBefore, Keeper, Made, OrderCall, OrderFault, OrderRecord, Standing,
    TreeKeeper,
};

// The last step that is held after an answer, if it was `last` before.
fn last_step(answer: Result<Made, OrderFault>, last: u64) -> u64
    ensures value { result ≡ last_after answer last }
{
    match answer {
        Ok(Made::Spawned { next, .. }) => next,
        Ok(Made::Next(step)) => step,
        Ok(Made::Last(_)) | Err(_) => last,
    }
}

// Starts afresh, makes the calls in turn, whatever is refused, and tells the answers; the last step that is then held.
fn play_calls<K: Keeper>(keeper: &mut K, calls: &[OrderCall], tally: &mut Tally) -> u64
    ensures kept { K.meaning keeper.new ≡ after_calls (emptied (K.meaning keeper.old).limit) calls.now }
    ensures last { result + 1 ≡ (K.meaning keeper.new).steps }
    ensures told { tally.new ≡ calls_told (emptied (K.meaning keeper.old).limit) calls.now tally.old }
{
    keeper.empty();
    let mut last = 0;
    for call in calls {
        let answer = call.make(keeper);
        last = last_step(answer, last);
        tally.call(answer);
    }
    last
}

// Tells how the step a stands to each step below `end`.
fn play_row<K: HappensBefore>(keeper: &K, a: u64, end: u64, tally: &mut Tally)
    ensures told { tally.new ≡ row_told (K.meaning keeper.now) a end tally.old }
{
    for b in 0..end {
        tally.pair(Standing {
            before: keeper.before(a, b),
            earlier: keeper.earlier(a, b),
        });
    }
}

// Tells how each step below `end` stands to each.
fn play_rows<K: HappensBefore>(keeper: &K, end: u64, tally: &mut Tally)
    ensures told { tally.new ≡ rows_told (K.meaning keeper.now) end end tally.old }
{
    for a in 0..end {
        play_row(keeper, a, end, tally);
    }
}

// Plays the calls, and then asks how all steps stand, with one that is not held. The tally hangs on the keeper's limit and the calls
// alone: it is the same for every keeper.
fn play<K: Keeper>(keeper: &mut K, calls: &[OrderCall], tally: &mut Tally)
    ensures told { tally.new ≡ played (K.meaning keeper.old).limit calls.now tally.old }
{
    let last = play_calls(keeper, calls, tally);
    play_rows(keeper, last.saturating_add(2), tally);
}

// Plays the calls on a tree keeper over the records.
pub fn play_tree(records: &mut [OrderRecord], calls: &[OrderCall], tally: &mut Tally)
    ensures told { tally.new ≡ played (1 + length records.old / 4) calls.now tally.old }
{
    play(&mut TreeKeeper::new(records), calls, tally);
}

// Plays the calls on a graph keeper over the records.
pub fn play_graph(records: &mut [OrderRecord], calls: &[OrderCall], tally: &mut Tally)
    ensures told { tally.new ≡ played (1 + length records.old / 4) calls.now tally.old }
{
    play(&mut GraphKeeper::new(records), calls, tally);
}
