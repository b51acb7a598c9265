// Where a cell's history and a task's number are kept: values by their keys, in lent records.
#![tactic(auto)]

mod fault;
mod key;
mod node;
mod nodes;
mod puts;
mod record;
mod slots;
mod store;
mod table;
mod tree;

pub use fault::CellFault;
pub use key::{StoreKey, hashes_differ};
pub use node::TreeNode;
pub use puts::{examples_hold, look_after};
pub use record::{CellRecord, NameRecord, PairRecord, Record};
pub use store::Store;
pub use table::Table;
pub use tree::SearchTree;
