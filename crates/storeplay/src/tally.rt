// What is counted of a store's answers, and the digest of all of them.
ghost use Rattle.std.specs.Prelude.{◌≡◌, Some, is_err};
ghost use Rattle.storeplay.specs.Tallies.{blank, one_more, mixed, put_told, look_told, held_told, tally_text, tallies_text, same};

use cells::{CellFault, StoreKey};
use std::fmt;

// Counts of what was answered, and a digest of each answer.
#[derive(Clone, Copy, PartialEq, Eq, Debug)]
pub struct Tally {
    pub puts: u64,
    pub refused: u64,
    pub held: u64,
    pub found: u64,
    pub digest: u64,
}

impl Tally {
    // Nothing is answered yet.
    pub fn new() -> Tally
        ensures value { result ≡ blank }
    {
        Tally {
            puts: 0,
            refused: 0,
            held: 0,
            found: 0,
            digest: 1,
        }
    }

    // Takes a word into the digest.
    fn mix(&mut self, word: u64)
        ensures told { self.new ≡ mixed word self.old }
    {
        self.digest = (self.digest ^ word).hash();
    }

    // What a put was answered.
    pub fn put(&mut self, answer: Result<(), CellFault>)
        ensures told { self.new ≡ put_told (is_err answer) self.old }
    {
        self.puts = self.puts.wrapping_add(1);
        match answer {
            Ok(()) => self.mix(0),
            Err(fault) => {
                self.refused = self.refused.wrapping_add(1);
                self.mix(u64::from(fault.number()));
            }
        }
    }

    // What a look found.
    pub fn look(&mut self, found: Option<u64>)
        ensures told { self.new ≡ look_told found self.old }
    {
        match found {
            None => self.mix(0),
            Some(n) => {
                self.found = self.found.wrapping_add(1);
                self.mix(n.wrapping_add(1));
            }
        }
    }

    // How many keys are held, and whether the store is full.
    pub fn hold(&mut self, count: usize, full: bool)
        ensures told { self.new ≡ held_told count full self.old }
    {
        self.held = count as u64;
        self.mix(u64::from(full));
    }
}

impl fmt::Display for Tally {
    ghost output = { λ t. Some (tally_text t) };

    fn fmt<W: fmt::Write>(&self, f: &mut fmt::Formatter<W>) -> fmt::Result {
        let Tally {
            puts,
            refused,
            held,
            found,
            digest,
        } = *self;
        write!(
            f,
            "{puts} puts, {refused} refused, {held} held, {found} found, digest {digest}"
        )
    }
}

// The tallies of both stores.
#[derive(Clone, Copy, PartialEq, Eq, Debug)]
pub struct Tallies {
    pub table: Tally,
    pub tree: Tally,
}

impl Tallies {
    // Whether the stores answered alike.
    pub fn agree(&self) -> bool
        ensures value { result ≡ same self.now.table self.now.tree }
    {
        self.table == self.tree
    }
}

impl fmt::Display for Tallies {
    ghost output = { λ t. Some (tallies_text t) };

    fn fmt<W: fmt::Write>(&self, f: &mut fmt::Formatter<W>) -> fmt::Result {
        let table = self.table;
        let word = if self.agree() { "equal" } else { "different" };
        write!(f, "{table}; table and tree: {word}")
    }
}
