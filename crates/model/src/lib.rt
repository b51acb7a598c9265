// Events and cells, as a record has them; races; what is kept of a cell and of a run; the layers that refuse. `specs/` has the
// rules of a run, and `laws` has the laws that are proved of them.
#![tactic(auto)]

pub mod laws;
mod numbers;
mod shown;

pub use numbers::{CellName, LARGEST};

// A block of a mailbox's index, which tasks read and write. Cells are in order by mailbox, and then by block.
#[derive(Clone, Copy, PartialEq, Eq, PartialOrd, Ord, Debug)]
pub struct Cell {
    pub mailbox: u64,
    pub block: u64,
}

// One thing that a task did. `C` is what names a cell.
#[derive(Clone, Copy, PartialEq, Eq, Debug)]
pub enum Event<C> {
    Spawn { task: u64, child: u64 },
    End { task: u64 },
    Open { task: u64 },
    Close { task: u64 },
    Read { task: u64, cell: C },
    Write { task: u64, cell: C },
}

// The part of the checker that a refusal comes from.
#[derive(Clone, Copy, PartialEq, Eq, Debug)]
pub enum Layer {
    Bytes,
    Run,
    Order,
    Cells,
}

// The kinds of two accesses that conflict, the earlier one first.
#[derive(Clone, Copy, PartialEq, Eq, Debug)]
pub enum RaceKind {
    WriteRead,
    WriteWrite,
    ReadWrite,
}

// Two conflicting accesses of a cell that nothing orders, by their places.
#[derive(Clone, Copy, PartialEq, Eq, Debug)]
pub struct Race<C> {
    pub kind: RaceKind,
    pub cell: C,
    pub first: u64,
    pub second: u64,
}

// An access that a cell's history keeps: the step it was done on, and its place.
#[derive(Clone, Copy, PartialEq, Eq, Debug)]
pub struct Mark {
    pub step: u64,
    pub place: u64,
}

// What is kept of a cell: its last write, and of the reads since it that are before no other of them the first and the
// last in serial order.
#[derive(Clone, Copy, PartialEq, Eq, Debug)]
pub struct History {
    pub write: Option<Mark>,
    pub left: Option<Mark>,
    pub right: Option<Mark>,
}

// Where a run is: events are fed to it, or a race has stopped it, or it is sealed, with its race if it has one.
#[derive(Clone, Copy, PartialEq, Eq, Debug)]
pub enum Stage<C> {
    Feeding,
    Raced(Race<C>),
    Sealed(Option<Race<C>>),
}

// A call on a run: an event is fed to it, or it is sealed with a token of some job.
#[derive(Clone, Copy, PartialEq, Eq, Debug)]
pub enum Call<C> {
    Feed(Event<C>),
    Seal(u64),
}
