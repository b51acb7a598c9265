// A run: events are fed to it one by one, and a token seals it.
#![tactic(auto)]

mod access;
mod fault;
mod log;
mod parts;
mod run;
mod token;
mod verdict;

pub use fault::{Refusal, RunFault};
pub use log::{Asked, Reply, examples_hold, replay, replay_again};
pub use run::{Answer, Opening, Run};
pub use token::{Token, Withdrawn};
pub use verdict::{Verdict, Word};
