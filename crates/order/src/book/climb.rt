// How two places stand: by the ways up from them to where these meet.
ghost use Rattle.std.specs.Prelude.{◌≡◌, ◌*◌, ◌%◌, ◌<◌, ◌&&◌, ◌==◌, nat_lt};
ghost use Rattle.order.specs.States.{state_of};
ghost use Rattle.order.specs.Invariants.{Plain};
ghost use Rattle.order.specs.Forks.{Forked};

use super::Book;

// The turns by which two ways up enter the place where they meet, 0 for a way that is there from the start, and the number of links on
// both.
#[derive(Clone, Copy)]
pub struct Fork {
    pub left: u64,
    pub right: u64,
    pub links: u64,
}

impl Fork {
    // Whether the first way turns to the left of the second.
    pub(crate) fn is_left(self) -> bool
        ensures value { result ≡ nat_lt self.left self.right }
    {
        self.left < self.right
    }

    // Whether it does, and its turn is even: it leads into no task.
    pub(crate) fn is_over(self) -> bool
        ensures value { result ≡ (nat_lt self.left self.right && self.left % 2 == 0) }
    {
        self.is_left() && self.left % 2 == 0
    }
}

impl<'a> Book<'a> {
    // Climbs from the later of the two places until they are one: a place hangs from an earlier one.
    pub(crate) fn climb(&self, a: u64, b: u64) -> Fork
        requires plain { Plain (state_of self.now) }
        requires held { (a < 2 * (state_of self.now).steps) × (b < 2 * (state_of self.now).steps) }
        ensures forked { Forked (state_of self.now).link a b result }
    {
        let mut x = a;
        let mut y = b;
        let mut fork = Fork {
            left: 0,
            right: 0,
            links: 0,
        };
        while x != y {
            if x > y {
                let link = self.link(x);
                x = link.up;
                fork.left = link.turn;
            } else {
                let link = self.link(y);
                y = link.up;
                fork.right = link.turn;
            }
            fork.links += 1;
        }
        fork
    }
}
