// A line of a listing, and its text.
ghost use Rattle.std.specs.Prelude.{◌≡◌, if◌then◌else◌, Some};
ghost use Rattle.listing.specs.declared.line.Again.TheVariants.{Equal, Different};
ghost use Rattle.listing.specs.Lines.{again_text, line_shown};

use model::{Cell, Event};
use record::ByteRefusal;
use std::fmt;

// Bytes that were written again, held against those that were read.
#[derive(Clone, Copy, PartialEq, Eq, Debug)]
pub enum Again {
    Equal,
    Different,
}

impl From<bool> for Again {
    ghost from_gives = { λ equal again. again ≡ (if equal then Equal else Different) };

    fn from(equal: bool) -> Again {
        if equal {
            Again::Equal
        } else {
            Again::Different
        }
    }
}

impl fmt::Display for Again {
    ghost output = { λ a. Some (again_text a) };

    fn fmt<W: fmt::Write>(&self, f: &mut fmt::Formatter<W>) -> fmt::Result {
        f.write_str(match self {
            Again::Equal => "equal",
            Again::Different => "different",
        })
    }
}

#[derive(Clone, Copy, PartialEq, Eq, Debug)]
pub enum Line {
    Job {
        job: u64,
    },
    // an event and its place among the events
    Entry {
        place: usize,
        event: Event<Cell>,
    },
    // how many events and bytes were read, and what writing them again gave
    Summary {
        events: usize,
        bytes: usize,
        again: Again,
    },
    Refused {
        refusal: ByteRefusal,
    },
}

impl fmt::Display for Line {
    ghost output = { λ l. line_shown l };

    fn fmt<W: fmt::Write>(&self, f: &mut fmt::Formatter<W>) -> fmt::Result {
        match self {
            Line::Job { job } => write!(f, "job {job}"),
            Line::Entry { place, event } => write!(f, "{place} {event}"),
            Line::Summary {
                events,
                bytes,
                again,
            } => { write!(f, "{events} events, {bytes} bytes, written again: {again}") }
            Line::Refused { refusal } => write!(f, "{refusal}"),
        }
    }
}
