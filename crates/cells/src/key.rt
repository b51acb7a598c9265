// What a store asks of its keys.
ghost use Rattle.std.specs.Prelude.{◌≡◌, ℕ, ◌^◌, ◌<◌, T};
ghost use Rattle.std.proofs.Common.{eqb→eq};
ghost use Rattle.model.specs.Mailboxes.{same_cell_is};
ghost use Rattle.cells.specs.Keys.{number_hash, number_hash_small, cell_hash, cell_hash_small};
ghost use Rattle.cells.specs.Keys.{NumbersDiffer, BlocksDiffer, MailboxesDiffer};

use model::Cell;

// A key: equal keys are one and the same, keys have an order, and each has a hash.
pub trait StoreKey: Ord + Copy {
    // What `hash` answers.
    ghost hashed: { Self → ℕ };

    // A number below 2^64, to be read as a part of 2^64: keys that are close to each other should be set far apart by it.
    fn hash(self) -> u64
        ensures value { result ≡ hashed self };

    ghost exact: { (a b : Self) → T (Self.PartialEq.eq a b) → a ≡ b };

    ghost small: { (a : Self) → hashed a < 2 ^ 64 };
}

// 2^64 divided by the golden ratio, by the plastic number and by its square, as odd numbers.
const GOLDEN: u64 = 0x9e37_79b9_7f4a_7c15;

const PLASTIC: u64 = 0xc13f_a9a9_02a6_328f;

const PLASTIC_SQUARED: u64 = 0x91e1_0da5_c79e_7b1d;

impl StoreKey for u64 {
    ghost hashed = { number_hash };

    ghost exact = { eqb→eq };

    ghost small = { number_hash_small };

    fn hash(self) -> u64 {
        self.wrapping_mul(GOLDEN)
    }
}

impl StoreKey for Cell {
    ghost hashed = { cell_hash };

    ghost exact = { same_cell_is };

    ghost small = { cell_hash_small };

    fn hash(self) -> u64 {
        self.mailbox
            .wrapping_mul(PLASTIC)
            .wrapping_add(self.block.wrapping_mul(PLASTIC_SQUARED))
    }
}

// The laws of hashes. It computes nothing: its contract names them.
pub fn hashes_differ()
    ensures numbers { NumbersDiffer }
    ensures blocks { BlocksDiffer }
    ensures mailboxes { MailboxesDiffer }
{}
