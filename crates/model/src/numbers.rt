// What an event says by itself: the task that does it, and whether its numbers are in range.
ghost use Rattle.std.specs.Prelude.{◌≡◌};
ghost use Rattle.model.specs.Past.{actor};
ghost use Rattle.model.specs.Accesses.{CellKind};
ghost use Rattle.model.specs.Rules.{within_max, numbers_fit};
ghost use Rattle.model.specs.Mailboxes.{mailbox_cells};

use crate::{Cell, Event};

// The largest number that a task, a mailbox or a block may have.
pub const LARGEST: u64 = 0x7fff_ffff_ffff_ffff;

// What names a cell. `kind` says when two names are of the same cell, and which have all their numbers in range.
pub trait CellName {
    ghost kind: { CellKind Self };

    fn fits(&self) -> bool
        ensures { result ≡ kind.fits self.now };
}

impl CellName for Cell {
    ghost kind = { mailbox_cells };

    fn fits(&self) -> bool {
        in_range(self.mailbox) && in_range(self.block)
    }
}

fn in_range(number: u64) -> bool
    ensures { result ≡ within_max number }
{
    number <= LARGEST
}

impl<C> Event<C> {
    // The task that does the event.
    pub fn task(&self) -> u64
        ensures task { result ≡ actor self.now }
    {
        match self {
            Event::Spawn { task, .. } => *task,
            Event::End { task } | Event::Open { task } | Event::Close { task } => *task,
            Event::Read { task, .. } | Event::Write { task, .. } => *task,
        }
    }
}

impl<C: CellName> Event<C> {
    // Whether every number in the event is in range.
    pub fn numbers_fit(&self) -> bool
        ensures fit { result ≡ numbers_fit C.CellName.kind self.now }
    {
        match self {
            Event::Spawn { task, child } => in_range(*task) && in_range(*child),
            Event::End { task } | Event::Open { task } | Event::Close { task } => in_range(*task),
            Event::Read { task, cell } | Event::Write { task, cell } => {
                in_range(*task) && cell.fits()
            }
        }
    }
}
