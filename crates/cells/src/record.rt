// What a store keeps its keys and values in.
ghost use Rattle.std.specs.Prelude.{◌≡◌, Some, None, Option, refl};
ghost use Rattle.cells.specs.Records.{pair_in, blank_record, record_of};

use crate::key::StoreKey;
use model::{Cell, History};

// A record of the memory that a store is lent: it holds a key with its value, or nothing.
pub trait Record: Copy {
    type Key: StoreKey;

    type Value: Copy;

    // What a record holds.
    ghost held: { Self → Option (Self.Key × Self.Value) };

    ghost BLANK: { Self };

    // What `new` answers.
    ghost made: { Self.Key → Self.Value → Self };

    // A record that holds nothing.
    const BLANK: Self;

    // A record that holds a key with its value.
    fn new(key: Self::Key, value: Self::Value) -> Self
        ensures value { result ≡ made key value };

    fn pair(self) -> Option<(Self::Key, Self::Value)>
        ensures value { result ≡ held self };

    ghost blank: { held BLANK ≡ None };

    ghost holds: { (k : Self.Key) (v : Self.Value) → held (made k v) ≡ Some (k, v) };
}

// A record that is just that.
#[derive(Clone, Copy)]
pub struct PairRecord<K, V> {
    pair: Option<(K, V)>,
}

impl<K: StoreKey, V: Copy> Record for PairRecord<K, V> {
    type Key = K;

    type Value = V;

    ghost held = { pair_in };

    ghost BLANK = { blank_record };

    ghost made = { record_of };

    ghost blank = { refl };

    ghost holds = { λ k v. refl };

    const BLANK: PairRecord<K, V> = PairRecord { pair: None };

    fn new(key: K, value: V) -> PairRecord<K, V> {
        PairRecord {
            pair: Some((key, value)),
        }
    }

    fn pair(self) -> Option<(K, V)> {
        self.pair
    }
}

// A record of a cell's history.
pub type CellRecord = PairRecord<Cell, History>;

// A record of the number that an order keeper gave a task, by the task's name.
pub type NameRecord = PairRecord<u64, u64>;
