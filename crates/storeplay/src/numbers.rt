// Keys and values that are made of numbers.
ghost use Rattle.std.specs.Prelude.{◌≡◌, ℕ, ◌^◌, ◌<◌, T};
ghost use Rattle.storeplay.specs.Numbers.{cell_of, history_of, history_told, one_home, one_home_exact, one_home_small};

use cells::StoreKey;
use model::{Cell, History, Mark};

// What is made of a number.
pub trait FromNumber {
    ghost made: { ℕ → Self };

    fn of(n: u64) -> Self
        ensures value { result ≡ made n };
}

// What tells a number as well.
pub trait Numbered: FromNumber {
    ghost told: { Self → ℕ };

    fn number(self) -> u64
        ensures value { result ≡ told self };
}

impl FromNumber for u64 {
    ghost made = { λ n. n };

    fn of(n: u64) -> u64 {
        n
    }
}

impl Numbered for u64 {
    ghost told = { λ n. n };

    fn number(self) -> u64 {
        self
    }
}

impl FromNumber for Cell {
    ghost made = { cell_of };

    fn of(n: u64) -> Cell {
        Cell {
            mailbox: n / 64,
            block: n % 64,
        }
    }
}

impl FromNumber for History {
    ghost made = { history_of };

    fn of(n: u64) -> History {
        let mark = Mark { step: n, place: n };
        History {
            write: Some(mark),
            left: None,
            right: Some(mark),
        }
    }
}

impl Numbered for History {
    ghost told = { history_told };

    fn number(self) -> u64 {
        match self.right {
            Some(mark) => mark.place,
            None => 0,
        }
    }
}

// Keys whose home slots are all one.
#[derive(Clone, Copy, PartialEq, Eq, PartialOrd, Ord, Debug)]
pub struct OneHome {
    pub number: u64,
}

impl StoreKey for OneHome {
    ghost hashed = { λ key. 0 };

    ghost exact = { one_home_exact };

    ghost small = { one_home_small };

    fn hash(self) -> u64 {
        0
    }
}

impl FromNumber for OneHome {
    ghost made = { one_home };

    fn of(n: u64) -> OneHome {
        OneHome { number: n }
    }
}
