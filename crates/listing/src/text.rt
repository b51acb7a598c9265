// The lines of a file. The allocator is passed beside the bytes, for the reason that `file` gives.
ghost use Rattle.std.specs.Prelude.{◌≡◌, [], ◌∷◌, ◌++◌, length, IfOk, Some, OnOk};
ghost use Rattle.listing.specs.declared.line.Line.TheVariants.{Refused};
ghost use Rattle.listing.specs.Files.{Listed};
ghost use Rattle.listing.specs.Lines.{Told, event_lines, lines_of};

use crate::error::ListError;
use crate::file::{Listing, list};
use crate::line::Line;
use model::{Cell, Event};
use record::{ByteFault, ByteRefusal};
use std::alloc::{AllocError, Global};

// The most bytes that a file may have.
pub const LIMIT: usize = 65_536;

// Adds a line for each event, with its place.
fn push_events(lines: &mut Vec<Line>, events: &[Event<Cell>]) -> Result<(), AllocError>
    ensures { OnOk result (lines.new.items ≡ lines.old.items ++ event_lines 0 events.now) }
{
    for (place, event) in events.iter().enumerate() {
        lines.push(Line::Entry {
            place,
            event: *event,
        })?;
    }
    Ok(())
}

impl Listing {
    // The lines of `bytes`, of which this is the listing: the job, the events, and how they end. What nothing stopped is written
    // again and compared.
    fn to_lines(&self, alloc: Global, bytes: &[u8]) -> Result<Vec<Line>, AllocError>
        requires { Listed bytes.now (Some self.now.job) self.now.events.items self.now.refusal }
        ensures { let l = self.now in
            IfOk result (λ v. v.items ≡ lines_of (length bytes.now) (Some l.job) l.events.items l.refusal) }
    {
        let mut lines = Vec::new(alloc);
        lines.push(Line::Job { job: self.job })?;
        push_events(&mut lines, self.events.as_slice())?;
        lines.push(match self.refusal {
            Some(refusal) => Line::Refused { refusal },
            None => Line::Summary {
                events: self.events.len(),
                bytes: bytes.len(),
                again: self.recording().written_again(alloc, bytes)?.into(),
            },
        })?;
        Ok(lines)
    }
}

// One line, for a file of which no event is read.
fn refused_line(alloc: Global, refusal: ByteRefusal) -> Result<Vec<Line>, AllocError>
    ensures { IfOk result (λ v. v.items ≡ Refused refusal ∷ []) }
{
    Ok(vec![in alloc; Line::Refused { refusal }]?)
}

// The lines by which a file is listed.
pub fn lines(alloc: Global, bytes: &[u8]) -> Result<Vec<Line>, AllocError>
    ensures told { IfOk result (λ v. Told bytes.now v.items) }
{
    if bytes.len() > LIMIT {
        return refused_line(alloc, ByteFault::NoRoom.at(LIMIT));
    }
    match list(alloc, bytes) {
        Ok(listing) => listing.to_lines(alloc, bytes),
        Err(ListError::Refused(refusal)) => refused_line(alloc, refusal),
        Err(ListError::OutOfMemory(error)) => Err(error),
    }
}
