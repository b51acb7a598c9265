// How much a run has room for.
ghost use Rattle.std.specs.Prelude.{Some};
ghost use Rattle.runplay.specs.Rooms.{room_text};

use std::fmt;

// How many records the keeper, the cell store and the name table are lent, and how many events the run may take.
#[derive(Clone, Copy, PartialEq, Eq, Debug)]
pub struct Room {
    pub keeper: usize,
    pub cells: usize,
    pub names: usize,
    pub events: u64,
}

impl Room {
    // More than enough for each list of calls.
    pub const PLENTY: Room = Room {
        keeper: 64,
        cells: 8,
        names: 8,
        events: 100,
    };
}

impl fmt::Display for Room {
    ghost output = { λ room. Some (room_text room) };

    fn fmt<W: fmt::Write>(&self, f: &mut fmt::Formatter<W>) -> fmt::Result {
        let Room {
            keeper,
            cells,
            names,
            events,
        } = *self;
        write!(
            f,
            "keeper {keeper}, cells {cells}, names {names}, events {events}"
        )
    }
}
