// Record bytes and events: reading one from the other and writing it back.
#![tactic(auto)]

mod event;
mod fault;
mod form;
mod heading;
mod kind;
mod number;
mod reader;
mod writer;

pub use event::read_event;
pub use fault::{ByteFault, ByteRefusal};
pub use heading::read_heading;
pub use number::read_number;
pub use reader::Reader;
pub use writer::Writer;
