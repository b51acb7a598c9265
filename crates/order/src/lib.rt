// Which step of a run is before which, kept by calls as its tasks spawn, end, and open and close finishes.
#![tactic(auto)]

mod book;
mod fault;
mod graph;
mod keeper;
mod plan;
mod record;
mod replay;
mod rows;
mod step_keeper;
mod tree;

pub use fault::OrderFault;
pub use graph::GraphKeeper;
pub use keeper::{HappensBefore, Keeper, TaskStage};
pub use record::OrderRecord;
pub use replay::{Made, OrderCall, Standing, both_after, examples_hold, stand_after};
pub use tree::{Relation, TreeKeeper};
