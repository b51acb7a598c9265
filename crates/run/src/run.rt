// A run: its parts, the job that it is of, how many events it may take, and its stage.
ghost use Rattle.run.specs.Shown.{answer_shown};

mod calls;
mod feeding;
mod opening;

use crate::parts::Parts;
use cells::Store;
use model::{Cell, History, Race, Stage};
pub use opening::Opening;
use order::Keeper;
use std::fmt;

// What an event is answered: it is taken, with the race that it makes, or meets a run that a race has stopped.
#[derive(Clone, Copy, PartialEq, Eq, Debug)]
pub enum Answer {
    Taken(Option<Race<Cell>>),
    Stopped(Race<Cell>),
}

#[derive(Drop)]
pub struct Run<K: Keeper, S: Store<Key = Cell, Value = History>, N: Store<Key = u64, Value = u64>> {
    parts: Parts<K, S, N>,
    job: u64,
    limit: u64,
    stage: Stage<Cell>,
}

impl fmt::Display for Answer {
    ghost output = { answer_shown };

    fn fmt<W: fmt::Write>(&self, f: &mut fmt::Formatter<W>) -> fmt::Result {
        match self {
            Answer::Taken(None) => write!(f, "taken"),
            Answer::Taken(Some(race)) => write!(f, "taken raced {race}"),
            Answer::Stopped(race) => write!(f, "stopped {race}"),
        }
    }
}
