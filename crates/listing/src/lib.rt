// A whole record file: listed line by line, and written again.
#![tactic(auto)]

mod error;
mod file;
mod line;
mod text;

pub use error::ListError;
pub use file::{Listing, Recording, list};
pub use line::{Again, Line};
pub use text::{LIMIT, lines};
