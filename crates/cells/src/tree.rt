// A store that is a binary search tree: smaller keys hang on the left of a key, and larger ones on its right. It is not kept in
// balance: keys that come in order make it a list.
ghost use Rattle.std.specs.Prelude.{◌≡◌, length};
ghost use Rattle.cells.specs.Slots.{used_in};
ghost use Rattle.cells.specs.Walks.{pairs_of, links_in, Grown, grown_prop};

use crate::fault::CellFault;
use crate::node::TreeNode;
use crate::nodes::Stop;
use crate::record::Record;
use crate::slots::Slots;
use crate::store::Store;

// Values by their keys, over lent nodes.
#[derive(Drop)]
pub struct SearchTree<'a, R: Record> {
    slots: Slots<'a, TreeNode<R>>,
    ghost counted: { slots.used ≡ used_in (pairs_of R.held slots) },
    ghost grown: { Grown R.Key.cmp (pairs_of R.held slots) (links_in slots) slots.used } by { grown_prop _ _ _ _ },
}

impl<'a, R: Record> SearchTree<'a, R> {
    ghost use Rattle.model.specs.Parts.{none_held};

    // An empty tree, whatever the nodes held.
    pub fn new(nodes: &'a mut [TreeNode<R>]) -> SearchTree<'a, R>
        ensures emptied { ⟦<SearchTree<'a, R> as Store>⟧.meaning result ≡ none_held (length nodes.old) }
    {
        SearchTree {
            slots: Slots::over(nodes),
        }
    }
}

impl<'a, R: Record> Store for SearchTree<'a, R> {
    ghost use Rattle.cells.specs.Meanings.{tree_meaning};

    type Key = R::Key;

    type Value = R::Value;

    ghost meaning = { tree_meaning R.held R.Key.PartialEq.eq };

    fn empty(&mut self) {
        self.slots.clear();
    }

    fn count(&self) -> usize {
        self.slots.used
    }

    fn limit(&self) -> usize {
        self.slots.records.len()
    }

    fn look(&self, key: R::Key) -> Option<R::Value> {
        match self.slots.descend(key) {
            Some(Stop::At(i)) => self.slots.value(i),
            Some(Stop::Off(..)) | None => None,
        }
    }

    fn put(&mut self, key: R::Key, value: R::Value) -> Result<(), CellFault> {
        match self.slots.descend(key) {
            Some(Stop::At(i)) => self.slots.renew(i, key, value),
            Some(Stop::Off(i, side)) if !self.slots.is_full() => {
                self.slots.grow(i, side, key, value)
            }
            Some(Stop::Off(..)) | None => return Err(CellFault::NoRoom),
        }
        Ok(())
    }
}
