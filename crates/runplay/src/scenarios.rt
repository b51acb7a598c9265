// The lists of calls that are made. Each is there for the numbers of what is refused, or for a race.
use crate::room::Room;
use crate::scenario::Scenario;
use model::{Call, Cell, Event};

// A call, written as it is shown.
macro_rules! call {
    (spawn $task:literal $child:literal) => {
        Call::Feed(Event::Spawn {
            task: $task,
            child: $child,
        })
    };
    (end $task:literal) => {
        Call::Feed(Event::End { task: $task })
    };
    (open $task:literal) => {
        Call::Feed(Event::Open { task: $task })
    };
    (close $task:literal) => {
        Call::Feed(Event::Close { task: $task })
    };
    (read $task:literal $mailbox:literal / $block:literal) => {
        Call::Feed(Event::Read {
            task: $task,
            cell: Cell {
                mailbox: $mailbox,
                block: $block,
            },
        })
    };
    (write $task:literal $mailbox:literal / $block:literal) => {
        Call::Feed(Event::Write {
            task: $task,
            cell: Cell {
                mailbox: $mailbox,
                block: $block,
            },
        })
    };
    (seal $job:literal) => {
        Call::Seal($job)
    };
}

// A list of calls in a room.
macro_rules! scenario {
    ($room:expr; $([$($word:tt)*])*) => {
        Scenario {
            room: $room,
            calls: &[$(call!($($word)*)),*],
        }
    };
}

// Rooms that are short of one thing.

// 3 steps
const EIGHT_KEPT: Room = Room {
    keeper: 8,
    ..Room::PLENTY
};

// 2 steps
const SEVEN_KEPT: Room = Room {
    keeper: 7,
    ..Room::PLENTY
};

const ONE_CELL: Room = Room {
    cells: 1,
    ..Room::PLENTY
};

const ONE_NAME: Room = Room {
    names: 1,
    ..Room::PLENTY
};

const ONE_EVENT: Room = Room {
    events: 1,
    ..Room::PLENTY
};

pub const SCENARIOS: [Scenario; 18] = [
    // 14, 7, 8, and 6 for 2^63
    scenario!(Room::PLENTY; [close 0]),
    scenario!(Room::PLENTY; [read 1 1/5]),
    scenario!(Room::PLENTY; [spawn 0 0]),
    scenario!(Room::PLENTY; [read 0 9223372036854775808/0]),
    // 13, 16
    scenario!(Room::PLENTY; [end 0] [read 0 1/5]),
    scenario!(Room::PLENTY; [open 0] [end 0]),
    // 17 for an open, and for a spawn
    scenario!(EIGHT_KEPT; [spawn 0 1] [open 0]),
    scenario!(SEVEN_KEPT; [spawn 0 1]),
    // 18, 9, 10
    scenario!(ONE_CELL; [read 0 1/5] [read 0 1/6] [write 0 1/5]),
    scenario!(ONE_NAME; [spawn 0 1] [spawn 0 2]),
    scenario!(ONE_EVENT; [open 0] [open 0]),
    // 12, and 11 after the seal
    scenario!(Room::PLENTY; [write 0 1/5] [seal 8] [seal 7] [seal 7] [read 0 1/5]),
    // 15 for a close, until task 1 has ended: then its write is before the other
    scenario!(Room::PLENTY; [open 0] [spawn 0 1] [write 1 1/5] [close 0] [end 1] [close 0] [write 0 1/5] [seal 7]),
    // a write races with a read, and with a write
    scenario!(Room::PLENTY; [spawn 0 1] [write 1 1/5] [read 0 1/5] [end 1] [seal 7]),
    scenario!(Room::PLENTY; [spawn 0 1] [write 1 1/5] [write 0 1/5] [seal 7]),
    // a write races with the left read, with the right read, and with a left read ahead of which the cell was read too
    scenario!(Room::PLENTY; [spawn 0 1] [read 1 1/5] [spawn 0 2] [read 2 1/5] [read 0 1/5] [write 0 1/5]),
    scenario!(Room::PLENTY; [spawn 0 1] [read 1 1/5] [read 0 1/5] [write 1 1/5]),
    scenario!(Room::PLENTY; [read 0 1/5] [spawn 0 1] [read 1 1/5] [read 0 1/5] [write 0 1/5]),
];
