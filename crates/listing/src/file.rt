// Whole files: reading them, and writing them again. What allocates is passed the allocator beside the bytes, as in the kit's
// library: a struct of the two would keep an allocator where bytes are meant.
ghost use Rattle.std.specs.Prelude.{◌≡◌, ◌≤◌, ◌↔◌, length, IfOk, IsTrue};
ghost use Rattle.record.specs.Events.{file_form};
ghost use Rattle.record.specs.Readers.{left_of};
ghost use Rattle.listing.specs.Files.{Fits, EventsRead, Listed, OnlyListing, ReadsBack, WritesBack};
ghost use Rattle.listing.specs.Files.{file_parts, PartsWritten, PartsCall, FileWritten};
ghost use Rattle.listing.specs.Listings.{Tells};

use crate::error::ListError;
use model::{Cell, Event};
use record::{ByteRefusal, Reader, Writer};
use std::alloc::{AllocError, Global};

// What a file tells: its job number, and its events up to the end of the file, or to the first that is refused.
#[derive(Debug, Drop)]
pub struct Listing {
    pub job: u64,
    pub events: Vec<Event<Cell>>,
    // what stopped the events, if anything did
    pub refusal: Option<ByteRefusal>,
}

// A job number and its events, which a file holds. It borrows the events: what is written again need not be a listing, and is
// not copied.
#[derive(Clone, Copy, PartialEq, Eq, Debug)]
pub struct Recording<'a> {
    pub job: u64,
    pub events: &'a [Event<Cell>],
}

impl Listing {
    // What was read, to be written again.
    pub fn recording(&self) -> Recording<'_>
        ensures job { result.job ≡ self.now.job }
        ensures events { result.events.now ≡ self.now.events.items }
    {
        Recording {
            job: self.job,
            events: self.events.as_slice(),
        }
    }
}

// The events before which `reader` stands, to the end of the file or to the first fault.
fn read_events(
    alloc: Global,
    reader: &mut Reader<'_>,
) -> Result<(Vec<Event<Cell>>, Option<ByteRefusal>), AllocError>
    ensures { IfOk result (λ p. EventsRead reader.old.place (left_of reader.old) p.0.items p.1) }
{
    let mut events = Vec::new(alloc);
    loop {
        match reader.next_event() {
            Ok(Some(event)) => events.push(event)?,
            Ok(None) => return Ok((events, None)),
            Err(refusal) => return Ok((events, Some(refusal))),
        }
    }
}

// Lists a file: the heading, the job number, and then the events.
pub fn list(alloc: Global, bytes: &[u8]) -> Result<Listing, ListError>
    ensures listed { Tells (Listed bytes.now) result }
    ensures only { Tells (OnlyListing bytes.now) result }
    ensures read_back { Tells (ReadsBack bytes.now) result }
    ensures written_back { Tells (WritesBack bytes.now) result }
{
    let mut reader = Reader::new(bytes);
    reader.heading()?;
    let job = reader.job()?;
    let (events, refusal) = read_events(alloc, &mut reader)?;
    Ok(Listing {
        job,
        events,
        refusal,
    })
}

impl Recording<'_> {
    // Writes the file at the place of `writer`. The parts before one that is refused stay written.
    fn write_on(self, writer: &mut Writer<'_>) -> Result<(), ByteRefusal>
        requires { writer.old.place ≤ length writer.old.buf.now }
        ensures { let r = self.entry in
            PartsCall (file_parts r.job r.events.now) writer.old result writer.new }
    {
        writer.heading()?;
        writer.job(self.job)?;
        for event in self.events {
            writer.event(*event)?;
        }
        Ok(())
    }

    // Writes the file from the start of `buf`; the index after it. The parts before one that is refused stay written, so
    // the buffer is never a caller's.
    fn write(self, buf: &mut [u8]) -> Result<usize, ByteRefusal>
        ensures written { FileWritten self.entry.job self.entry.events.now buf.old result buf.new }
        ensures parts { let r = self.entry in
            PartsWritten (file_parts r.job r.events.now) buf.old 0 result buf.new }
    {
        let mut writer = Writer::new(buf, 0);
        self.write_on(&mut writer)?;
        Ok(writer.place())
    }

    // Whether `bytes` are the form of the job and the events: these are written again and compared with them.
    pub fn written_again(self, alloc: Global, bytes: &[u8]) -> Result<bool, AllocError>
        ensures decided { let r = self.entry in
            IfOk result (λ b. IsTrue b ↔ (Fits r.job r.events.now × (bytes.now ≡ file_form r.job r.events.now))) }
    {
        let mut buf = vec![in alloc; 0u8; bytes.len()]?;
        match self.write(buf.as_mut_slice()) {
            Ok(end) => Ok(&buf[..end] == bytes),
            Err(_) => Ok(false),
        }
    }
}
