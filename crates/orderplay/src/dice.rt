// Numbers to make lists of calls by.
ghost use Rattle.std.specs.Prelude.{◌≡◌};
ghost use Rattle.orderplay.specs.Dice.{rolled, face};

// A small generator of numbers.
#[derive(Clone, Copy, PartialEq, Eq, Debug)]
pub struct Dice {
    pub state: u64,
}

impl Dice {
    // The next number, from 0 to `last`.
    pub fn roll(&mut self, last: u32) -> u32
        ensures value { result ≡ face (rolled self.old) last }
        ensures rolled { self.new ≡ rolled self.old }
    {
        self.state = self
            .state
            .wrapping_mul(6_364_136_223_846_793_005)
            .wrapping_add(1_442_695_040_888_963_407);
        ((self.state >> 33) % (u64::from(last) + 1)) as u32
    }
}
