// A record file, checked: its bytes, to a report of one line.
#![tactic(auto)]

mod checking;
mod fault;
mod feeding;
mod report;

pub use checking::{check, check_over};
pub use fault::{FileFault, FileRefusal};
pub use report::Report;
