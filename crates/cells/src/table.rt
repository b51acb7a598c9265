// A store that probes: each key stands in its home slot, or in the first slot after it that was free. The fuller the table is, the
// more slots a search for a key that is not held visits; in a full one it visits all.
ghost use Rattle.std.specs.Prelude.{◌≡◌, length};
ghost use Rattle.cells.specs.Slots.{pairs_in, used_in};
ghost use Rattle.cells.specs.Probes.{Probed, probed_prop};

use crate::fault::CellFault;
use crate::record::Record;
use crate::slots::{Seek, Slots};
use crate::store::Store;

// Values by their keys, over lent records.
#[derive(Drop)]
pub struct Table<'a, R: Record> {
    slots: Slots<'a, R>,
    ghost counted: { slots.used ≡ used_in (pairs_in R.held slots) },
    ghost probed: { Probed R.Key.PartialEq.eq R.Key.hashed (pairs_in R.held slots) } by { probed_prop _ _ _ },
}

impl<'a, R: Record> Table<'a, R> {
    ghost use Rattle.model.specs.Parts.{none_held};

    // An empty table, whatever the records held.
    pub fn new(records: &'a mut [R]) -> Table<'a, R>
        ensures emptied { ⟦<Table<'a, R> as Store>⟧.meaning result ≡ none_held (length records.old) }
    {
        Table {
            slots: Slots::over(records),
        }
    }
}

impl<'a, R: Record> Store for Table<'a, R> {
    ghost use Rattle.cells.specs.Meanings.{table_meaning};

    type Key = R::Key;

    type Value = R::Value;

    ghost meaning = { table_meaning R.held R.Key.PartialEq.eq };

    fn empty(&mut self) {
        self.slots.clear();
    }

    fn count(&self) -> usize {
        self.slots.used
    }

    fn limit(&self) -> usize {
        self.slots.records.len()
    }

    fn look(&self, key: R::Key) -> Option<R::Value> {
        match self.slots.probe(key) {
            Seek::Found(i) => self.slots.value(i),
            Seek::Free(_) | Seek::Full => None,
        }
    }

    fn put(&mut self, key: R::Key, value: R::Value) -> Result<(), CellFault> {
        let seek = self.slots.probe(key);
        self.slots.lay(seek, key, value)
    }
}
