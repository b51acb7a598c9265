// The bytes of numbers' forms, one after another.
ghost use Rattle.std.specs.Prelude.{◌^◌, ◌<◌, ◌↔◌, IsTrue};
ghost use Rattle.std.proofs.Props.{props};
ghost use Rattle.std.specs.Option.{ForSome};
ghost use Rattle.record.specs.Numbers.{InRange};

use crate::fault::ByteFault;
use crate::number::{GOES_ON, GROUP, LONGEST};
use model::LARGEST;

// What is still to come: the groups of `number`, the lowest first, and then the forms of `rest`. A `flat_map` over the numbers
// needs an iterator of one number's bytes all the same, and a type for numbers in range: two types, which stood here, and longer.
// `Copy`: beside ghost fields the kit derives no `Clone` alone. `by` shows of a ghost field's fact that it has one proof at most.
#[derive(Clone, Copy)]
pub(crate) struct FormBytes<'a> {
    number: Option<u64>,
    rest: &'a [u64],
    ghost number_fits: { ForSome number (λ n. n < 2 ^ 63) },
    ghost rest_fits: { InRange rest.now } by { Prim.hlevel props },
}

// Whether each number has a form. (That a run takes no larger number either is a rule of its own, told in `model`.)
fn in_range(numbers: &[u64]) -> bool
    ensures { IsTrue result ↔ InRange numbers.now }
{
    numbers.iter().all(|number| *number <= LARGEST)
}

impl<'a> TryFrom<&'a [u64]> for FormBytes<'a> {
    ghost use Rattle.record.specs.Forms.{Formed};

    type Error = ByteFault;

    ghost try_from_gives = { λ numbers r. Formed numbers.now r };

    fn try_from(numbers: &'a [u64]) -> Result<FormBytes<'a>, ByteFault> {
        if in_range(numbers) {
            Ok(FormBytes {
                number: None,
                rest: numbers,
            })
        } else {
            Err(ByteFault::TooLarge)
        }
    }
}

impl<'a> FormBytes<'a> {
    ghost use Rattle.std.specs.Prelude.{◌≡◌, ◌+◌, ◌*◌, ◌≤◌, length};
    ghost use Rattle.record.specs.Forms.{form_left, NumberTaken, FormTaken};

    // Takes the number whose next group is to come: what is left of one, or else the first of the rest.
    fn next_number(&mut self) -> Option<u64>
        ensures { NumberTaken self.old result self.new }
    {
        if let Some(number) = self.number.take() {
            return Some(number);
        }
        let (first, rest) = self.rest.split_first()?;
        self.rest = rest;
        Some(*first)
    }

    // The bytes of the next number alone, which are then no longer to come. To go over the bytes number by number takes less time
    // than to go over all at once.
    pub(crate) fn next_form(&mut self) -> Option<FormBytes<'a>>
        ensures { FormTaken self.old result self.new }
    {
        let number = self.next_number()?;
        Some(FormBytes {
            number: Some(number),
            rest: &[],
        })
    }

    // No fewer bytes than are still to come.
    pub(crate) fn at_most(&self) -> usize
        ensures value { result ≡ 9 + 9 * length self.now.rest.now }
        ensures bound { length (form_left self.now) ≤ result }
    {
        LONGEST + LONGEST * self.rest.len()
    }

    // How many bytes are still to come.
    pub(crate) fn width(&self) -> usize
        ensures value { result ≡ length (form_left self.now) }
        ensures bound { result ≤ 9 + 9 * length self.now.rest.now }
    {
        let mut width = 0;
        let mut left = *self;
        while let Some(number) = left.next_form() {
            width += number.counted();
        }
        width
    }

    // The same, counted byte by byte.
    fn counted(&self) -> usize
        ensures value { result ≡ length (form_left self.now) }
        ensures bound { result ≤ 9 + 9 * length self.now.rest.now }
    {
        let bytes = *self;
        bytes.count()
    }
}

impl Iterator for FormBytes<'_> {
    ghost use Rattle.std.specs.Iterator.{YieldsFirst, item_count};
    ghost use Rattle.record.specs.Forms.{form_left};

    type Item = u8;

    ghost next_gives = { YieldsFirst form_left };

    ghost remaining = { item_count form_left };

    #[tactic(auto, using(crate::proofs::Forms::form_last, crate::proofs::Forms::form_more))]
    fn next(&mut self) -> Option<u8> {
        let number = self.next_number()?;
        // `as`: a group fits a byte, which is proved, and `try_from` would ask for a case that never comes.
        if number < GROUP {
            return Some(number as u8);
        }
        self.number = Some(number / GROUP);
        Some(GOES_ON + (number % GROUP) as u8)
    }
}
