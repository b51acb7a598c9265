// What the checker says of a file.
ghost use Rattle.checker.specs.Faults.{report_shown};

use crate::fault::FileRefusal;
use run::{Verdict, Withdrawn};
use std::fmt;

#[derive(Clone, Copy, PartialEq, Eq, Debug)]
pub enum Report {
    // the run was sealed, at the end of the file or at its first race
    Sealed(Verdict),
    // the run's token was withdrawn, at what is refused
    Withdrawn(Withdrawn, FileRefusal),
    // no run was opened, since no job number was read
    Unopened(FileRefusal),
}

impl fmt::Display for Report {
    ghost output = { report_shown };

    fn fmt<W: fmt::Write>(&self, f: &mut fmt::Formatter<W>) -> fmt::Result {
        match self {
            Report::Sealed(verdict) => write!(f, "{verdict}"),
            Report::Withdrawn(withdrawn, refusal) => write!(f, "{withdrawn} {refusal}"),
            Report::Unopened(refusal) => write!(f, "{refusal}"),
        }
    }
}
