// An order keeper that climbs the program structure tree: its root is the outer finish, its leaves are the steps, and each node
// between is a task or a finish.
ghost use Rattle.std.specs.Prelude.{◌≡◌, ◌+◌, ◌/◌, length};
ghost use Rattle.order.specs.States.{state_of};
ghost use Rattle.order.specs.Invariants.{Plain};
ghost use Rattle.order.specs.Trees.{TreeSound, tree_plan, tree_order, step_label};
ghost use Rattle.order.specs.Keepers.{relation_in};

mod growth;
mod seats;

use crate::book::Book;
use crate::keeper::HappensBefore;
use crate::plan::Planned;
use crate::record::{OrderRecord, Seat};
use crate::replay::OrderCall;
use crate::step_keeper::StepKeeper;

// How two steps stand, and how many links are climbed from both to their lowest common ancestor.
#[derive(Clone, Copy, PartialEq, Eq, Debug)]
pub struct Relation {
    pub before: bool,
    pub earlier: bool,
    pub links: u64,
}

// How the steps a and b stand in the tree; no, no and 0 if one of them is not held.
fn relate(book: &Book<'_>, a: u64, b: u64) -> Relation
    requires plain { Plain (state_of book.now) }
    requires sound { ∥ TreeSound (state_of book.now) ∥₁ }
    ensures told { let st = state_of book.now in result ≡ relation_in (tree_order st) (step_label st) a b }
{
    if !book.holds(a, b) {
        return Relation {
            before: false,
            earlier: false,
            links: 0,
        };
    }
    let fork = book.climb(2 * a + 1, 2 * b + 1);
    Relation {
        before: fork.is_over(),
        earlier: fork.is_left(),
        links: fork.links,
    }
}

// Steps hang from the nodes of the tree.
pub struct Tree;

impl Planned for Tree {
    ghost plan = { tree_plan };

    ghost Sound = { TreeSound };

    fn child_seat(book: &Book<'_>, task: u64) -> Seat {
        seats::in_task(book, task)
    }

    fn next_seat(book: &Book<'_>, task: u64) -> Seat {
        seats::beside_step(book, task)
    }

    fn open_seat(book: &Book<'_>, task: u64) -> Seat {
        seats::in_finish(book, task)
    }

    fn close_seat(book: &Book<'_>, task: u64) -> Seat {
        seats::beside_finish(book, task)
    }

    fn before(book: &Book<'_>, a: u64, b: u64) -> bool {
        relate(book, a, b).before
    }

    fn earlier(book: &Book<'_>, a: u64, b: u64) -> bool {
        relate(book, a, b).earlier
    }
}

// The order of a job's steps, in its program structure tree, over lent records.
pub type TreeKeeper<'a> = StepKeeper<'a, Tree>;

impl<'a> TreeKeeper<'a> {
    ghost use Rattle.model.specs.Orders.{emptied};
    ghost use Rattle.model.specs.Trees.{Labelled};
    ghost use Rattle.order.specs.Keepers.{labels_of, TreeGrown};
    ghost use Rattle.order.specs.Replays.{after_calls};
    ghost use Rattle.order.specs.Grown.{tree_after};
    ghost use Rattle.order.specs.Examples.{LinksShown, TreesDiffer};

    // A keeper of 1 step, and one more for every four records.
    pub fn new(records: &'a mut [OrderRecord]) -> TreeKeeper<'a>
        ensures emptied { ⟦<TreeKeeper<'a> as HappensBefore>⟧.meaning result ≡ emptied (1 + length records.old / 4) }
    {
        StepKeeper::over(records)
    }

    // How the steps a and b stand in the tree; no, no and 0 if one of them is not held.
    pub fn relation(&self, a: u64, b: u64) -> Relation
        ensures told { result ≡ relation_in (⟦<TreeKeeper<'a> as HappensBefore>⟧.meaning self.now) (labels_of self.now) a b }
        ensures labelled { Labelled (⟦<TreeKeeper<'a> as HappensBefore>⟧.meaning self.now) (labels_of self.now) }
        ensures grown { TreeGrown self.now }
    {
        relate(&self.book, a, b)
    }

    // Starts afresh, makes the calls in turn, whatever is refused, and tells how the steps a and b then stand in the tree that these
    // calls grow.
    pub fn relation_after(&mut self, calls: &[OrderCall], a: u64, b: u64) -> Relation
        ensures told { let limit = (⟦<TreeKeeper<'a> as HappensBefore>⟧.meaning self.old).limit in
            result ≡ relation_in (after_calls (emptied limit) calls.now) (tree_after limit calls.now).step a b }
        ensures kept { let m = ⟦<TreeKeeper<'a> as HappensBefore>⟧.meaning self.old in
            ⟦<TreeKeeper<'a> as HappensBefore>⟧.meaning self.new ≡ after_calls (emptied m.limit) calls.now }
        ensures links { LinksShown }
        ensures differ { TreesDiffer }
    {
        growth::regrow(&mut self.book, calls);
        self.relation(a, b)
    }
}
