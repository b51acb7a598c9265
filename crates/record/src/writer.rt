// Writing into a lent buffer: the heading, the job number or an event, each whole or not at all.
ghost use Rattle.std.specs.Prelude.{◌≡◌, [], ◌∷◌};
ghost use Rattle.record.specs.Numbers.{number_form};
ghost use Rattle.record.specs.Heading.{heading};
ghost use Rattle.record.specs.Events.{event_form, numbers_of};
ghost use Rattle.record.specs.Writers.{WriteCall};
ghost use Rattle.record.specs.Laws.{EventsApart};
ghost use Rattle.record.specs.Examples.{EventExamples};

mod whole;

use crate::fault::ByteRefusal;
use crate::heading::HEADING;
use crate::kind::Kind;
use model::{Cell, Event};

// A writer of record bytes: the buffer that it was lent, and the place at which it writes next.
#[derive(Drop)]
pub struct Writer<'a> {
    buf: &'a mut [u8],
    place: usize,
}

impl<'a> Writer<'a> {
    // A writer at `place`. Past the end of the buffer whatever it is asked to write is refused.
    pub fn new(buf: &'a mut [u8], place: usize) -> Writer<'a>
        ensures lent { result.buf.ghost_name ≡ buf.entry.ghost_name }
        ensures bytes { result.buf.now ≡ buf.old }
        ensures place { result.place ≡ place }
    {
        Writer { buf, place }
    }

    // The place at which it writes next.
    pub fn place(&self) -> usize
        ensures value { result ≡ self.now.place }
    {
        self.place
    }

    // Writes the heading.
    pub fn heading(&mut self) -> Result<(), ByteRefusal>
        ensures written { WriteCall [] heading self.old result self.new }
    {
        self.write(&HEADING, &[])
    }

    // Writes a job number.
    pub fn job(&mut self, job: u64) -> Result<(), ByteRefusal>
        ensures written { WriteCall (job ∷ []) (number_form job) self.old result self.new }
    {
        self.write(&[], &[job])
    }

    // Writes an event: each arm is a row of the format's table.
    #[tactic(auto, using(crate::proofs::OneEvent::events_apart, crate::proofs::ByExample::event_examples))]
    pub fn event(&mut self, event: Event<Cell>) -> Result<(), ByteRefusal>
        ensures written { WriteCall (numbers_of event) (event_form event) self.old result self.new }
        ensures apart { EventsApart }
        ensures examples { EventExamples }
    {
        match event {
            Event::Spawn { task, child } => self.write(&[Kind::Spawn as u8], &[task, child]),
            Event::End { task } => self.write(&[Kind::End as u8], &[task]),
            Event::Open { task } => self.write(&[Kind::Open as u8], &[task]),
            Event::Close { task } => self.write(&[Kind::Close as u8], &[task]),
            Event::Read { task, cell } => {
                self.write(&[Kind::Read as u8], &[task, cell.mailbox, cell.block])
            }
            Event::Write { task, cell } => {
                self.write(&[Kind::Write as u8], &[task, cell.mailbox, cell.block])
            }
        }
    }
}
