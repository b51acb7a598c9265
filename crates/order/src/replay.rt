// Lists of calls, made on any keeper.
ghost use Rattle.std.specs.Prelude.{◌≡◌};
ghost use Rattle.model.specs.Orders.{emptied};
ghost use Rattle.order.specs.Calls.{reply};
ghost use Rattle.order.specs.Replays.{fault_of, answer_of, after_call, after_calls, SaysReached, SaysNo};
ghost use Rattle.order.specs.Examples.{RoomShown, FirstFaults, AnswersShown, NumbersShown};

use crate::fault::OrderFault;
use crate::keeper::Keeper;

// One call of a task.
#[derive(Clone, Copy, PartialEq, Eq, Debug)]
pub enum OrderCall {
    Spawn { task: u64 },
    Open { task: u64 },
    Close { task: u64 },
    End { task: u64 },
}

// What a call answers.
#[derive(Clone, Copy, PartialEq, Eq, Debug)]
pub enum Made {
    // the first step of the new task, and the spawner's next
    Spawned { child: u64, next: u64 },
    // the task's next step
    Next(u64),
    // the task's last step
    Last(u64),
}

impl OrderCall {
    // Makes the call.
    pub fn make<K: Keeper>(self, keeper: &mut K) -> Result<Made, OrderFault>
        ensures answered { result ≡ reply (fault_of (K.meaning keeper.old) self) (answer_of (K.meaning keeper.old) self) }
        ensures kept { K.meaning keeper.new ≡ after_call (K.meaning keeper.old) self }
    {
        Ok(match self {
            OrderCall::Spawn { task } => {
                let (child, next) = keeper.spawn(task)?;
                Made::Spawned { child, next }
            }
            OrderCall::Open { task } => Made::Next(keeper.open(task)?),
            OrderCall::Close { task } => Made::Next(keeper.close(task)?),
            OrderCall::End { task } => Made::Last(keeper.end(task)?),
        })
    }
}

// How two steps stand.
#[derive(Clone, Copy, PartialEq, Eq, Debug)]
pub struct Standing {
    pub before: bool,
    pub earlier: bool,
}

// Starts afresh and makes the calls in turn, whatever is refused.
fn make_all<K: Keeper>(keeper: &mut K, calls: &[OrderCall])
    ensures kept { K.meaning keeper.new ≡ after_calls (emptied (K.meaning keeper.old).limit) calls.now }
{
    keeper.empty();
    for call in calls {
        let _ = call.make(keeper);
    }
}

// Starts afresh, makes the calls in turn, and tells how the steps a and b then stand: whichever keeper it is, it says what the order
// says that the calls reach.
pub fn stand_after<K: Keeper>(keeper: &mut K, calls: &[OrderCall], a: u64, b: u64) -> Standing
    ensures kept { K.meaning keeper.new ≡ after_calls (emptied (K.meaning keeper.old).limit) calls.now }
    ensures reached { SaysReached (K.meaning keeper.old).limit calls.now a b result }
    ensures no { SaysNo (K.meaning keeper.old).limit calls.now a b result }
{
    make_all(keeper, calls);
    Standing {
        before: keeper.before(a, b),
        earlier: keeper.earlier(a, b),
    }
}

// How the steps a and b stand after the calls, as each of two keepers says, which both start afresh: they say the same if they may
// hold as many steps.
pub fn both_after<K: Keeper, L: Keeper>(
    one: &mut K,
    other: &mut L,
    calls: &[OrderCall],
    a: u64,
    b: u64,
) -> (Standing, Standing)
    ensures one { SaysReached (K.meaning one.old).limit calls.now a b result.0 }
    ensures other { SaysReached (L.meaning other.old).limit calls.now a b result.1 }
    ensures one_kept { K.meaning one.new ≡ after_calls (emptied (K.meaning one.old).limit) calls.now }
    ensures other_kept { L.meaning other.new ≡ after_calls (emptied (L.meaning other.old).limit) calls.now }
    ensures agreed { (K.meaning one.old).limit ≡ (L.meaning other.old).limit → result.0 ≡ result.1 }
{
    (
        stand_after(one, calls, a, b),
        stand_after(other, calls, a, b),
    )
}

// Examples, by computation. It computes nothing: its contract names them.
pub fn examples_hold()
    ensures room { RoomShown }
    ensures first { FirstFaults }
    ensures answers { AnswersShown }
    ensures numbers { NumbersShown }
{}
