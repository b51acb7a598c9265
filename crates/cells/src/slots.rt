// Lent records as slots, of which some are used.
ghost use Rattle.std.specs.Prelude.{◌≡◌, ◌<◌, length, replicate, nat_le, option_map};
ghost use Rattle.cells.specs.Stores.{put_answer, after_put};
ghost use Rattle.cells.specs.Slots.{pairs_in, pair_at, used_in, keyed_in, Sought, laid};

mod probe;

use crate::fault::CellFault;
use crate::record::Record;

#[derive(Drop)]
pub struct Slots<'a, R: Record> {
    pub records: &'a mut [R],
    // how many of them are used
    pub used: usize,
}

// What a search for a key comes to.
#[derive(Clone, Copy)]
pub enum Seek {
    // its own slot
    Found(usize),
    // a slot that is free for it
    Free(usize),
    // neither: all slots are used by other keys
    Full,
}

impl<'a, R: Record> Slots<'a, R> {
    // Blank slots, whatever the records held.
    pub(crate) fn over(records: &'a mut [R]) -> Slots<'a, R>
        ensures blank { result.records.now ≡ replicate (length records.old) R.BLANK }
        ensures unused { result.used ≡ 0 }
    {
        let mut slots = Slots { records, used: 0 };
        slots.clear();
        slots
    }

    // Makes all slots blank.
    pub(crate) fn clear(&mut self)
        ensures blank { self.new.records.now ≡ replicate (length self.old.records.now) R.BLANK }
        ensures unused { self.new.used ≡ 0 }
    {
        for i in 0..self.records.len() {
            self.records[i] = R::BLANK;
        }
        self.used = 0;
    }

    // Whether all slots are used.
    pub(crate) fn is_full(&self) -> bool
        ensures value { result ≡ nat_le (length self.now.records.now) self.now.used }
    {
        self.used >= self.records.len()
    }

    // What a slot holds.
    pub(crate) fn pair(&self, i: usize) -> Option<(R::Key, R::Value)>
        requires { i < length self.now.records.now }
        ensures value { result ≡ pair_at (pairs_in R.held self.now) i }
    {
        self.records[i].pair()
    }

    // The value that a slot holds.
    pub(crate) fn value(&self, i: usize) -> Option<R::Value>
        requires { i < length self.now.records.now }
        ensures value { result ≡ option_map (λ p. p.1) (pair_at (pairs_in R.held self.now) i) }
    {
        let (_, value) = self.pair(i)?;
        Some(value)
    }

    // Gives a key a value, where the search for it came to.
    pub(crate) fn lay(&mut self, seek: Seek, key: R::Key, value: R::Value) -> Result<(), CellFault>
        requires counted { self.old.used ≡ used_in (pairs_in R.held self.old) }
        requires sought { Sought R.Key.PartialEq.eq key (pairs_in R.held self.old) seek }
        ensures laid { pairs_in R.held self.new ≡ laid seek (key, value) (pairs_in R.held self.old) }
        ensures counted { self.new.used ≡ used_in (pairs_in R.held self.new) }
        ensures answered { result ≡ put_answer (keyed_in R.Key.PartialEq.eq (pairs_in R.held self.old)) key }
        ensures kept { keyed_in R.Key.PartialEq.eq (pairs_in R.held self.new)
            ≡ after_put R.Key.PartialEq.eq (keyed_in R.Key.PartialEq.eq (pairs_in R.held self.old)) key value }
    {
        match seek {
            Seek::Found(i) => self.records[i] = R::new(key, value),
            Seek::Free(i) => {
                self.records[i] = R::new(key, value);
                self.used += 1;
            }
            Seek::Full => return Err(CellFault::NoRoom),
        }
        Ok(())
    }
}
