// What is counted of the answers, and the digest of all of them.
ghost use Rattle.std.specs.Prelude.{◌≡◌, ◌↔◌, IsTrue, Some};
ghost use Rattle.orderplay.specs.Tallies.{blank, mixed, made_told, call_told, pair_told, tally_text, tallies_text, same, even};

use order::{Made, OrderFault, Standing};
use std::fmt;

// Counts of what was answered, and a digest of each answer of a call and of how each pair of steps stands.
#[derive(Clone, Copy, PartialEq, Eq, Debug)]
pub struct Tally {
    pub calls: u64,
    pub refused: u64,
    pub pairs: u64,
    pub before: u64,
    pub earlier: u64,
    pub digest: u64,
}

impl Tally {
    // Nothing is answered yet.
    pub fn new() -> Tally
        ensures value { result ≡ blank }
    {
        Tally {
            calls: 0,
            refused: 0,
            pairs: 0,
            before: 0,
            earlier: 0,
            digest: 14_695_981_039_346_656_037,
        }
    }

    // Takes a word into the digest.
    fn mix(&mut self, word: u64)
        ensures told { self.new ≡ mixed word self.old }
    {
        self.digest = (self.digest ^ word).wrapping_mul(1_099_511_628_211);
    }

    // Takes the answer of a call that was not refused: a word for its kind, and its steps.
    fn mix_made(&mut self, made: Made)
        ensures told { self.new ≡ made_told made self.old }
    {
        match made {
            Made::Spawned { child, next } => {
                self.mix(32);
                self.mix(child);
                self.mix(next);
            }
            Made::Next(step) => {
                self.mix(33);
                self.mix(step);
            }
            Made::Last(step) => {
                self.mix(34);
                self.mix(step);
            }
        }
    }

    // Takes what a call answered.
    pub fn call(&mut self, answer: Result<Made, OrderFault>)
        ensures told { self.new ≡ call_told answer self.old }
    {
        self.calls = self.calls.wrapping_add(1);
        match answer {
            Ok(made) => self.mix_made(made),
            Err(fault) => {
                self.refused = self.refused.wrapping_add(1);
                self.mix(u64::from(fault.number()));
            }
        }
    }

    // Takes how two steps stand.
    pub fn pair(&mut self, standing: Standing)
        ensures told { self.new ≡ pair_told standing self.old }
    {
        let before = u64::from(standing.before);
        let earlier = u64::from(standing.earlier);
        self.pairs = self.pairs.wrapping_add(1);
        self.before = self.before.wrapping_add(before);
        self.earlier = self.earlier.wrapping_add(earlier);
        self.mix(2 * before + earlier);
    }
}

impl fmt::Display for Tally {
    ghost output = { λ t. Some (tally_text t) };

    fn fmt<W: fmt::Write>(&self, f: &mut fmt::Formatter<W>) -> fmt::Result {
        let Tally {
            calls,
            refused,
            pairs,
            before,
            earlier,
            ..
        } = *self;
        write!(f, "{calls} calls, {refused} refused, ")?;
        write!(
            f,
            "{pairs} pairs of steps, {before} before, {earlier} earlier"
        )
    }
}

// A tally of each keeper.
#[derive(Clone, Copy, PartialEq, Eq, Debug)]
pub struct Tallies {
    pub tree: Tally,
    pub graph: Tally,
}

impl Tallies {
    pub fn new() -> Tallies
        ensures value { result ≡ even blank }
    {
        Tallies {
            tree: Tally::new(),
            graph: Tally::new(),
        }
    }

    // Whether the two are equal.
    pub fn agree(&self) -> bool
        ensures value { result ≡ same self.now.tree self.now.graph }
        ensures equal { IsTrue result ↔ (self.now.tree ≡ self.now.graph) }
    {
        self.tree == self.graph
    }
}

impl fmt::Display for Tallies {
    ghost output = { λ t. Some (tallies_text t) };

    fn fmt<W: fmt::Write>(&self, f: &mut fmt::Formatter<W>) -> fmt::Result {
        let tree = self.tree;
        let digest = tree.digest;
        let word = if self.agree() { "equal" } else { "different" };
        write!(f, "{tree}\ndigest {digest:x}\ntree and graph: {word}")
    }
}
