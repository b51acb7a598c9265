// Why a store refuses a put.
ghost use Rattle.std.specs.Prelude.{◌≡◌};
ghost use Rattle.cells.specs.Faults.{number_of, layer_of};

use model::Layer;

#[derive(Clone, Copy, PartialEq, Eq, Debug)]
pub enum CellFault {
    // the key is not held, and every record is used; who keeps names asks `is_full` first, and refuses by 9
    NoRoom = 18,
}

impl CellFault {
    // The number by which the fault is known.
    pub fn number(self) -> u8
        ensures value { result ≡ number_of self }
    {
        self as u8
    }

    // The layer that it comes from.
    pub fn layer(self) -> Layer
        ensures value { result ≡ layer_of self }
    {
        Layer::Cells
    }
}
