// Looking for a key from its home slot on.
ghost use Rattle.std.specs.Prelude.{◌≡◌, ◌<◌, length};
ghost use Rattle.cells.specs.Slots.{pairs_in, pair_at, Sought};
ghost use Rattle.cells.specs.Probes.{home, visit, met, Probed, FreeFound};

use super::{Seek, Slots};
use crate::key::StoreKey;
use crate::record::Record;

// The home slot of a key with such a hash, among n.
fn home(n: usize, hash: u64) -> usize
    ensures value { result ≡ home n hash }
{
    // `as`: no `From` leads from `usize`, or back to it.
    ((u128::from(hash) * n as u128) >> 64) as usize
}

// The slot that stands d slots after the slot h, among n.
fn visit(n: usize, h: usize, d: usize) -> usize
    requires { (h < n) × (d < n) }
    ensures value { result ≡ visit n h d }
    ensures within { result < n }
{
    if d < n - h { h + d } else { d - (n - h) }
}

impl<'a, R: Record> Slots<'a, R> {
    // What a search for a key comes to in a slot; none, if the slot is used by another key.
    fn meet(&self, i: usize, key: R::Key) -> Option<Seek>
        requires { i < length self.now.records.now }
        ensures value { result ≡ met R.Key.PartialEq.eq key i (pair_at (pairs_in R.held self.now) i) }
    {
        match self.pair(i) {
            None => Some(Seek::Free(i)),
            Some(pair) if pair.0 == key => Some(Seek::Found(i)),
            Some(_) => None,
        }
    }

    // What the search for a key comes to. It ends, though all slots may be used.
    pub(crate) fn probe(&self, key: R::Key) -> Seek
        requires { Probed R.Key.PartialEq.eq R.Key.hashed (pairs_in R.held self.now) }
        ensures sought { Sought R.Key.PartialEq.eq key (pairs_in R.held self.now) result }
        ensures free { FreeFound R.Key.PartialEq.eq R.Key.hashed key (pairs_in R.held self.now) result }
    {
        let n = self.records.len();
        let first = home(n, key.hash());
        for d in 0..n {
            let i = visit(n, first, d);
            if let Some(seek) = self.meet(i, key) {
                return seek;
            }
        }
        Seek::Full
    }
}
