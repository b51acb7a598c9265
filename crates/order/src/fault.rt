// Why a keeper refuses a call.
ghost use Rattle.std.specs.Prelude.{◌≡◌};
ghost use Rattle.order.specs.Faults.{number_of, layer_of};

use model::Layer;

#[derive(Clone, Copy, PartialEq, Eq, Debug)]
pub enum OrderFault {
    // the task has ended, or is not held
    TaskEnded = 13,
    // a close by a task that has no finish of its own open
    NoFinishOpen = 14,
    // a close, while a task lives in the innermost finish
    FinishNotEmpty = 15,
    // an end by a task that has a finish of its own open
    FinishOpen = 16,
    // fewer steps are free than the call makes
    NoStepFree = 17,
}

impl OrderFault {
    // The number by which the fault is known.
    pub fn number(self) -> u8
        ensures value { result ≡ number_of self }
    {
        self as u8
    }

    // The layer that it comes from.
    pub fn layer(self) -> Layer
        ensures value { result ≡ layer_of self }
    {
        Layer::Order
    }
}
