// What a sealed run says.
ghost use Rattle.std.specs.Prelude.{◌≡◌, Some};
ghost use Rattle.run.specs.Shown.{word_of, word_text, verdict_shown};

use model::{Cell, Race};
use std::fmt;

// The word of a verdict.
#[derive(Clone, Copy, PartialEq, Eq, Debug)]
pub enum Word {
    Clean,
    Raced,
}

// The job, its race if it has one, and how many events were taken.
#[derive(Clone, Copy, PartialEq, Eq, Debug)]
pub struct Verdict {
    pub job: u64,
    pub race: Option<Race<Cell>>,
    pub events: u64,
}

impl Verdict {
    // Clean, if it has no race.
    pub fn word(self) -> Word
        ensures value { result ≡ word_of self.race }
    {
        match self.race {
            None => Word::Clean,
            Some(_) => Word::Raced,
        }
    }
}

impl fmt::Display for Word {
    ghost output = { λ w. Some (word_text w) };

    fn fmt<W: fmt::Write>(&self, f: &mut fmt::Formatter<W>) -> fmt::Result {
        f.write_str(match self {
            Word::Clean => "clean",
            Word::Raced => "raced",
        })
    }
}

impl fmt::Display for Verdict {
    ghost output = { λ v. verdict_shown v };

    fn fmt<W: fmt::Write>(&self, f: &mut fmt::Formatter<W>) -> fmt::Result {
        match self.race {
            None => write!(f, "job {} {} events {}", self.job, self.word(), self.events),
            Some(race) => write!(
                f,
                "job {} {} {race} events {}",
                self.job,
                self.word(),
                self.events
            ),
        }
    }
}
