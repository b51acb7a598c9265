// Why a run turns a call away.
ghost use Rattle.std.specs.Prelude.{◌≡◌, Some};
ghost use Rattle.run.specs.declared.fault.RunFault.TheVariants.{Order, Cells};
ghost use Rattle.run.specs.Faults.{number_of, layer_of};
ghost use Rattle.run.specs.Shown.{refusal_text};

use cells::CellFault;
use model::Layer;
use order::OrderFault;
use std::error::Error;
use std::fmt;

#[derive(Clone, Copy, PartialEq, Eq, Debug)]
pub enum RunFault {
    // a number in the event is above 2^63 - 1
    TooLarge,
    // the task is neither 0 nor made by a spawn that was taken
    UnknownTask,
    // the child's name is 0, or was made before
    NameTaken,
    // the name records are all used
    NoName,
    // as many events are taken as the run may take
    Full,
    // the run is sealed
    Sealed,
    // the token is of another job
    OtherJob,
    // the keeper's refusal
    Order(OrderFault),
    // the store's refusal
    Cells(CellFault),
}

impl From<OrderFault> for RunFault {
    ghost from_gives = { λ fault r. r ≡ Order fault };

    fn from(fault: OrderFault) -> RunFault {
        RunFault::Order(fault)
    }
}

impl From<CellFault> for RunFault {
    ghost from_gives = { λ fault r. r ≡ Cells fault };

    fn from(fault: CellFault) -> RunFault {
        RunFault::Cells(fault)
    }
}

impl RunFault {
    // The number by which the fault is known.
    pub fn number(self) -> u8
        ensures value { result ≡ number_of self }
    {
        match self {
            RunFault::TooLarge => 6,
            RunFault::UnknownTask => 7,
            RunFault::NameTaken => 8,
            RunFault::NoName => 9,
            RunFault::Full => 10,
            RunFault::Sealed => 11,
            RunFault::OtherJob => 12,
            RunFault::Order(fault) => fault.number(),
            RunFault::Cells(fault) => fault.number(),
        }
    }

    // The layer that it comes from.
    pub fn layer(self) -> Layer
        ensures value { result ≡ layer_of self }
    {
        match self {
            RunFault::Order(fault) => fault.layer(),
            RunFault::Cells(fault) => fault.layer(),
            _ => Layer::Run,
        }
    }

    // The fault at its place.
    pub fn at(self, place: u64) -> Refusal
        ensures fault { result.fault ≡ self }
        ensures place { result.place ≡ place }
    {
        Refusal { fault: self, place }
    }
}

// A fault and its place: the count of events taken when the call was turned away.
#[derive(Clone, Copy, PartialEq, Eq, Debug)]
pub struct Refusal {
    pub fault: RunFault,
    pub place: u64,
}

impl Error for Refusal {}

impl fmt::Display for Refusal {
    ghost output = { λ r. Some (refusal_text r) };

    fn fmt<W: fmt::Write>(&self, f: &mut fmt::Formatter<W>) -> fmt::Result {
        write!(
            f,
            "refused {} layer {} place {}",
            self.fault.number(),
            self.fault.layer(),
            self.place
        )
    }
}
