// How a writer writes a form: it looks at the numbers, then at the room, and only then lays the bytes.
ghost use Rattle.std.specs.Prelude.{◌≤◌, ◌+◌, ◌++◌, ◌↔◌, length, IsTrue};
ghost use Rattle.record.specs.Numbers.{numbers_form};
ghost use Rattle.record.specs.Forms.{form_left};
ghost use Rattle.record.specs.Writers.{HasRoom, Laid, WriteCall};

use super::Writer;
use crate::fault::{ByteFault, ByteRefusal};
use crate::form::FormBytes;

impl Writer<'_> {
    // Whether `width` bytes have room; past the end of the buffer none has.
    fn has_room(&self, width: usize) -> bool
        ensures { IsTrue result ↔ HasRoom self.now width }
    {
        self.buf
            .len()
            .checked_sub(self.place)
            .is_some_and(|left| width <= left)
    }

    // Whether a few bytes and then a form have room. The form's bytes are counted only where the most that it can have are too
    // many.
    fn has_room_for(&self, lead: usize, form: &FormBytes<'_>) -> bool
        requires { lead ≤ 4 }
        ensures { IsTrue result ↔ HasRoom self.now (lead + length (form_left form.now)) }
    {
        self.has_room(lead + form.at_most()) || self.has_room(lead + form.width())
    }

    // Lays bytes.
    fn lay(&mut self, bytes: &[u8])
        requires { HasRoom self.old (length bytes.now) }
        ensures { Laid bytes.now self.old self.new }
    {
        let end = self.place + bytes.len();
        self.buf[self.place..end].copy_from_slice(bytes);
        self.place = end;
    }

    // Lays a form byte by byte: of slots behind a `zip` with the buffer the kit knows no value once they are written.
    fn lay_form(&mut self, form: FormBytes<'_>)
        requires { HasRoom self.old (length (form_left form)) }
        ensures { Laid (form_left form.entry) self.old self.new }
    {
        for byte in form {
            self.lay(&[byte]);
        }
    }

    // Writes a few bytes, few enough that the width fits 64 bits, and then the forms of `numbers`; or refuses.
    pub(super) fn write(&mut self, lead: &[u8], numbers: &[u64]) -> Result<(), ByteRefusal>
        requires { length lead.now ≤ 4 }
        ensures { WriteCall numbers.now (lead.now ++ numbers_form numbers.now)
            self.old result self.new }
    {
        let form = FormBytes::try_from(numbers).map_err(|fault| fault.at(self.place))?;
        if !self.has_room_for(lead.len(), &form) {
            return Err(ByteFault::NoRoom.at(self.place));
        }
        self.lay(lead);
        let mut left = form;
        while let Some(number) = left.next_form() {
            self.lay_form(number);
        }
        Ok(())
    }
}
