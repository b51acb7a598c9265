// What a reader reads: the heading, the job number, and one event after another.
ghost use Rattle.std.specs.Prelude.{◌≤◌, length};
ghost use Rattle.std.specs.Result.{ForOk};
ghost use Rattle.record.specs.Readers.{left_of, Went, HeadingCall, JobCall, EventCall};

use super::Reader;
use crate::event::read_event;
use crate::fault::{ByteFault, ByteRefusal};
use crate::heading::read_heading;
use crate::number::read_number;
use model::{Cell, Event};

impl<'a> Reader<'a> {
    // Goes on behind what was read of the rest, or says where the fault stands.
    fn pass<T>(&mut self, read: Result<(T, &'a [u8]), ByteFault>) -> Result<T, ByteRefusal>
        requires { ForOk read (λ p. length p.1.now ≤ length (left_of self.old)) }
        ensures went { Went self.old read.entry result self.new }
    {
        let (value, rest) = read.map_err(|fault| fault.at(self.place))?;
        self.place += self.rest.len() - rest.len();
        self.rest = rest;
        Ok(value)
    }

    // The heading.
    pub fn heading(&mut self) -> Result<(), ByteRefusal>
        ensures answered { HeadingCall self.old result self.new }
    {
        self.pass(read_heading(self.rest).map(|rest| ((), rest)))
    }

    // The job number.
    pub fn job(&mut self) -> Result<u64, ByteRefusal>
        ensures answered { JobCall self.old result self.new }
    {
        self.pass(read_number(self.rest))
    }

    // The next event, or none at the end of the file.
    pub fn next_event(&mut self) -> Result<Option<Event<Cell>>, ByteRefusal>
        ensures answered { EventCall self.old result self.new }
    {
        if self.rest.is_empty() {
            return Ok(None);
        }
        self.pass(read_event(self.rest)).map(Some)
    }
}
