// Rows of numbers, played on any store, and on both.
ghost use Rattle.std.specs.Prelude.{◌≡◌, ◌*◌, length, min, nat_eq};
ghost use Rattle.cells.specs.Puts.{puts_taken, last_put};
ghost use Rattle.storeplay.specs.Rows.{count_of};
ghost use Rattle.storeplay.specs.Tallies.{blank};
ghost use Rattle.storeplay.specs.Plays.{meant, puts_told, looks_told, played};

use crate::numbers::{FromNumber, Numbered};
use crate::row::Row;
use crate::tally::{Tallies, Tally};
use cells::{NameRecord, Record, SearchTree, Store, StoreKey, Table, TreeNode, look_after};

// Empties the store, puts the numbers in turn, and tells the answers.
fn play_puts<K: StoreKey + FromNumber, V: Numbered + Copy, S: Store<Key = K, Value = V>>(
    store: &mut S,
    row: Row,
    tally: &mut Tally,
)
    ensures held { S.meaning store.new ≡ meant K.PartialEq.eq K.made V.made (S.meaning store.old).limit row (count_of row) }
    ensures told { tally.new ≡ puts_told K.PartialEq.eq K.made V.made (S.meaning store.old).limit row (count_of row) tally.old }
{
    store.empty();
    for i in 0..row.count() {
        let answer = store.put(K::of(row.number(i)), V::of(u64::from(i)));
        tally.put(answer);
    }
}

// Looks at the numbers below `end`, and tells what is found.
fn play_looks<K: StoreKey + FromNumber, V: Numbered + Copy, S: Store<Key = K, Value = V>>(
    store: &S,
    end: u64,
    tally: &mut Tally,
)
    ensures told { tally.new ≡ looks_told K.made V.told (S.meaning store.now).find end tally.old }
{
    for n in 0..end {
        let found = match store.look(K::of(n)) {
            Some(value) => Some(value.number()),
            None => None,
        };
        tally.look(found);
    }
}

// Puts the numbers, and looks at those below twice as many. The tally hangs on the store's limit and the row alone: it is the same
// for every store.
fn play<K: StoreKey + FromNumber, V: Numbered + Copy, S: Store<Key = K, Value = V>>(
    store: &mut S,
    row: Row,
    tally: &mut Tally,
)
    ensures told { tally.new ≡ played K.PartialEq.eq K.made V.made V.told (S.meaning store.old).limit row tally.old }
{
    play_puts(store, row, tally);
    tally.hold(store.count(), store.is_full());
    play_looks(store, 2 * u64::from(row.count()), tally);
}

// Plays the row on a table over the records.
fn play_table<K: StoreKey + FromNumber, V: Numbered + Copy, R: Record<Key = K, Value = V>>(
    records: &mut [R],
    row: Row,
    tally: &mut Tally,
)
    ensures told { tally.new ≡ played K.PartialEq.eq K.made V.made V.told (length records.old) row tally.old }
{
    play(&mut Table::new(records), row, tally);
}

// Plays the row on a search tree over the nodes.
fn play_tree<K: StoreKey + FromNumber, V: Numbered + Copy, R: Record<Key = K, Value = V>>(
    nodes: &mut [TreeNode<R>],
    row: Row,
    tally: &mut Tally,
)
    ensures told { tally.new ≡ played K.PartialEq.eq K.made V.made V.told (length nodes.old) row tally.old }
{
    play(&mut SearchTree::new(nodes), row, tally);
}

// Plays the row on both stores, over so many of their records, or all that there are. What the records held before plays no part.
pub fn play_both<K: StoreKey + FromNumber, V: Numbered + Copy, R: Record<Key = K, Value = V>>(
    records: &mut [R],
    nodes: &mut [TreeNode<R>],
    lent: usize,
    row: Row,
) -> Tallies
    ensures table { result.table ≡ played K.PartialEq.eq K.made V.made V.told (min lent (length records.old)) row blank }
    ensures tree { result.tree ≡ played K.PartialEq.eq K.made V.made V.told (min lent (length nodes.old)) row blank }
    ensures agreed { length records.old ≡ length nodes.old → result.table ≡ result.tree }
{
    let mut table = Tally::new();
    let most = lent.min(records.len());
    play_table(&mut records[..most], row, &mut table);
    let mut tree = Tally::new();
    let most = lent.min(nodes.len());
    play_tree(&mut nodes[..most], row, &mut tree);
    Tallies { table, tree }
}

// Looks at a name after the puts, on both stores.
pub fn look_both(
    records: &mut [NameRecord],
    nodes: &mut [TreeNode<NameRecord>],
    puts: &[(u64, u64)],
    name: u64,
) -> (Option<u64>, Option<u64>)
    ensures table { result.0 ≡ last_put nat_eq (puts_taken nat_eq (length records.old) puts.now) name }
    ensures tree { result.1 ≡ last_put nat_eq (puts_taken nat_eq (length nodes.old) puts.now) name }
{
    (
        look_after(&mut Table::new(records), puts, name),
        look_after(&mut SearchTree::new(nodes), puts, name),
    )
}
