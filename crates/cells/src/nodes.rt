// Slots that are the nodes of a search tree.
ghost use Rattle.std.specs.Prelude.{◌≡◌, ◌+◌, ◌<◌, Some, length, map, set, cond, is_some, nat_lt};
ghost use Rattle.cells.specs.Slots.{pair_at};
ghost use Rattle.cells.specs.Walks.{links_in, pairs_of, link_at, side_of, walk_for, hung, Grown};

use crate::node::{Side, TreeNode};
use crate::record::Record;
use crate::slots::Slots;
use std::cmp::Ordering;

// Where the walk for a key ends.
#[derive(Clone, Copy)]
pub enum Stop {
    // at its own slot, or at a root that is free
    At(usize),
    // at the side of a slot where nothing hangs
    Off(usize, Side),
}

impl<'a, R: Record> Slots<'a, TreeNode<R>> {
    // The side of a slot on which a key hangs; none, if it is the slot's own or the slot is free.
    fn side(&self, i: usize, key: R::Key) -> Option<Side>
        requires { i < length self.now.records.now }
        ensures value { result ≡ side_of R.Key.cmp key (pair_at (pairs_of R.held self.now) i) }
    {
        let pair = self.pair(i)?;
        match key.cmp(&pair.0) {
            Ordering::Less => Some(Side::Left),
            Ordering::Equal => None,
            Ordering::Greater => Some(Side::Right),
        }
    }

    // Walks from the root towards a key. The walk of a tree ends somewhere, unless there is no slot at all.
    pub(crate) fn descend(&self, key: R::Key) -> Option<Stop>
        requires { Grown R.Key.cmp (pairs_of R.held self.now) (links_in self.now) self.now.used }
        ensures walked { result ≡ walk_for R.Key.cmp (pairs_of R.held self.now) (links_in self.now) key }
    {
        if self.records.is_empty() {
            return None;
        }
        let mut i = 0;
        while let Some(side) = self.side(i, key) {
            let next = self.records[i].links.to(side);
            if next == 0 {
                return Some(Stop::Off(i, side));
            }
            i = next;
        }
        Some(Stop::At(i))
    }

    // Gives a slot a key and its value, and leaves its links; a slot that was free is used from then on.
    pub(crate) fn renew(&mut self, i: usize, key: R::Key, value: R::Value)
        requires within { i < length self.old.records.now }
        requires filled { is_some (pair_at (pairs_of R.held self.old) i) ≡ nat_lt i self.old.used }
        ensures laid { pairs_of R.held self.new ≡ set (pairs_of R.held self.old) i (Some (key, value)) }
        ensures links { links_in self.new ≡ links_in self.old }
        ensures used { self.new.used ≡ cond (is_some (pair_at (pairs_of R.held self.old) i)) self.old.used (self.old.used + 1) }
    {
        if self.pair(i).is_none() {
            self.used += 1;
        }
        self.records[i].record = R::new(key, value);
    }

    // Gives the first free slot a key and its value, and hangs it on a side of the slot i.
    pub(crate) fn grow(&mut self, i: usize, side: Side, key: R::Key, value: R::Value)
        requires { (i < self.old.used) × (self.old.used < length self.old.records.now) }
        ensures laid { pairs_of R.held self.new ≡ set (pairs_of R.held self.old) self.old.used (Some (key, value)) }
        ensures links { links_in self.new ≡ hung (links_in self.old) self.old.used i side }
        ensures used { self.new.used ≡ self.old.used + 1 }
    {
        let n = self.used;
        self.records[n] = TreeNode::new(key, value);
        self.records[i].links = self.records[i].links.with(side, n);
        self.used += 1;
    }
}
