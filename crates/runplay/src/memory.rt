// The records that the parts of a run are lent, and what runs over them are opened with.
ghost use Rattle.std.specs.Prelude.{◌≡◌, length, IfOk};
ghost use Rattle.run.specs.Runs.{opening_of};
ghost use Rattle.runplay.specs.Rooms.{opening_in, opening_with, Fits};

use crate::room::Room;
use cells::{CellRecord, NameRecord, Record, SearchTree, Store, Table, TreeNode};
use model::{Cell, History};
use order::{GraphKeeper, HappensBefore, Keeper, OrderRecord, TreeKeeper};
use run::Opening;
use std::alloc::{AllocError, Global};

#[derive(Drop)]
pub struct Memory {
    pub keeper: Vec<OrderRecord>,
    pub cells: Vec<CellRecord>,
    pub nodes: Vec<TreeNode<CellRecord>>,
    pub names: Vec<NameRecord>,
}

// What a run is opened with: a keeper, a store, and a table of names over the records.
fn over<'a, K: Keeper, S: Store<Key = Cell, Value = History>>(
    job: u64,
    events: u64,
    keeper: K,
    store: S,
    names: &'a mut [NameRecord],
) -> Opening<K, S, Table<'a, NameRecord>>
    ensures { opening_of K.meaning S.meaning ⟦<Table<'a, NameRecord> as Store>⟧.meaning result
        ≡ opening_with job events (K.meaning keeper).limit (S.meaning store).limit (length names.old) }
{
    Opening {
        job,
        event_limit: events,
        keeper,
        store,
        names: Table::new(names),
    }
}

impl Memory {
    // As much as the room asks for.
    pub fn new(alloc: Global, room: Room) -> Result<Memory, AllocError>
        ensures { IfOk result (λ memory. Fits room memory) }
    {
        Ok(Memory {
            keeper: vec![in alloc; OrderRecord::BLANK; room.keeper]?,
            cells: vec![in alloc; CellRecord::BLANK; room.cells]?,
            nodes: vec![in alloc; TreeNode::<CellRecord>::BLANK; room.cells]?,
            names: vec![in alloc; NameRecord::BLANK; room.names]?,
        })
    }

    // A tree keeper and a table.
    pub fn tree_table<'a>(
        &'a mut self,
        job: u64,
        room: Room,
    ) -> Opening<TreeKeeper<'a>, Table<'a, CellRecord>, Table<'a, NameRecord>>
        requires { Fits room self.old }
        ensures { opening_of ⟦<TreeKeeper<'a> as HappensBefore>⟧.meaning ⟦<Table<'a, CellRecord> as Store>⟧.meaning
            ⟦<Table<'a, NameRecord> as Store>⟧.meaning result ≡ opening_in job room }
    {
        let tree = TreeKeeper::new(self.keeper.as_mut_slice());
        let table = Table::new(self.cells.as_mut_slice());
        over(job, room.events, tree, table, self.names.as_mut_slice())
    }

    // A tree keeper and a search tree.
    pub fn tree_search<'a>(
        &'a mut self,
        job: u64,
        room: Room,
    ) -> Opening<TreeKeeper<'a>, SearchTree<'a, CellRecord>, Table<'a, NameRecord>>
        requires { Fits room self.old }
        ensures { opening_of ⟦<TreeKeeper<'a> as HappensBefore>⟧.meaning ⟦<SearchTree<'a, CellRecord> as Store>⟧.meaning
            ⟦<Table<'a, NameRecord> as Store>⟧.meaning result ≡ opening_in job room }
    {
        let tree = TreeKeeper::new(self.keeper.as_mut_slice());
        let search = SearchTree::new(self.nodes.as_mut_slice());
        over(job, room.events, tree, search, self.names.as_mut_slice())
    }

    // A graph keeper and a table.
    pub fn graph_table<'a>(
        &'a mut self,
        job: u64,
        room: Room,
    ) -> Opening<GraphKeeper<'a>, Table<'a, CellRecord>, Table<'a, NameRecord>>
        requires { Fits room self.old }
        ensures { opening_of ⟦<GraphKeeper<'a> as HappensBefore>⟧.meaning ⟦<Table<'a, CellRecord> as Store>⟧.meaning
            ⟦<Table<'a, NameRecord> as Store>⟧.meaning result ≡ opening_in job room }
    {
        let graph = GraphKeeper::new(self.keeper.as_mut_slice());
        let table = Table::new(self.cells.as_mut_slice());
        over(job, room.events, graph, table, self.names.as_mut_slice())
    }

    // A graph keeper and a search tree.
    pub fn graph_search<'a>(
        &'a mut self,
        job: u64,
        room: Room,
    ) -> Opening<GraphKeeper<'a>, SearchTree<'a, CellRecord>, Table<'a, NameRecord>>
        requires { Fits room self.old }
        ensures { opening_of ⟦<GraphKeeper<'a> as HappensBefore>⟧.meaning ⟦<SearchTree<'a, CellRecord> as Store>⟧.meaning
            ⟦<Table<'a, NameRecord> as Store>⟧.meaning result ≡ opening_in job room }
    {
        let graph = GraphKeeper::new(self.keeper.as_mut_slice());
        let search = SearchTree::new(self.nodes.as_mut_slice());
        over(job, room.events, graph, search, self.names.as_mut_slice())
    }
}
