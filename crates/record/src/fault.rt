// Why bytes are refused, on reading and on writing.
ghost use Rattle.std.specs.Prelude.{◌≡◌, Some};
ghost use Rattle.record.specs.Faults.{number_of, layer_of, refusal_text};

use model::Layer;
use std::error::Error;
use std::fmt;

#[derive(Clone, Copy, PartialEq, Eq, Debug)]
pub enum ByteFault {
    // a byte of the heading that is there is wrong
    WrongHeading = 1,
    // the bytes run out
    Short = 2,
    // a number is not in its shortest form, or too long
    BadNumber = 3,
    // no kind of event has this byte
    UnknownKind = 4,
    // the buffer has no room
    NoRoom = 5,
    // a number is above 2^63 - 1
    TooLarge = 6,
}

impl ByteFault {
    // The number by which the fault is known.
    pub fn number(self) -> u8
        ensures value { result ≡ number_of self }
    {
        self as u8
    }

    // The layer that it comes from: the writer's 6 too is one of the bytes.
    pub fn layer(self) -> Layer
        ensures value { result ≡ layer_of self }
    {
        Layer::Bytes
    }

    // The fault at its place.
    pub fn at(self, place: usize) -> ByteRefusal
        ensures fault { result.fault ≡ self }
        ensures place { result.place ≡ place }
    {
        ByteRefusal { fault: self, place }
    }
}

// A fault and its place: on reading the first byte of the heading, the job number or the event; on writing where the writer stands.
#[derive(Clone, Copy, PartialEq, Eq, Debug)]
pub struct ByteRefusal {
    pub fault: ByteFault,
    pub place: usize,
}

impl Error for ByteRefusal {}

impl fmt::Display for ByteRefusal {
    ghost output = { λ r. Some (refusal_text r) };

    fn fmt<W: fmt::Write>(&self, f: &mut fmt::Formatter<W>) -> fmt::Result {
        write!(
            f,
            "refused {} layer {} byte {}",
            self.fault.number(),
            self.fault.layer(),
            self.place
        )
    }
}
