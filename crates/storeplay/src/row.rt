// Rows of numbers.
ghost use Rattle.std.specs.Prelude.{◌≡◌, ◌<◌, Some};
ghost use Rattle.storeplay.specs.Rows.{count_of, number_in, row_text};

use cells::StoreKey;
use std::fmt;

// So many numbers, in some order.
#[derive(Clone, Copy, PartialEq, Eq, Debug)]
pub enum Row {
    // from 0 up
    Rising(u32),
    // down to 0
    Falling(u32),
    // some of those below twice as many
    Any(u32),
}

impl Row {
    pub fn count(self) -> u32
        ensures value { result ≡ count_of self }
    {
        match self {
            Row::Rising(n) | Row::Falling(n) | Row::Any(n) => n,
        }
    }

    // The number with the index i.
    pub(crate) fn number(self, i: u32) -> u64
        requires { i < count_of self }
        ensures value { result ≡ number_in self i }
    {
        match self {
            Row::Rising(_) => u64::from(i),
            Row::Falling(n) => u64::from(n - 1 - i),
            Row::Any(n) => u64::from(i).hash() % (2 * u64::from(n)),
        }
    }
}

impl fmt::Display for Row {
    ghost output = { λ row. Some (row_text row) };

    fn fmt<W: fmt::Write>(&self, f: &mut fmt::Formatter<W>) -> fmt::Result {
        match self {
            Row::Rising(n) => write!(f, "{n} numbers, rising"),
            Row::Falling(n) => write!(f, "{n} numbers, falling"),
            Row::Any(n) => write!(f, "{n} numbers, in any order, some of them twice"),
        }
    }
}
