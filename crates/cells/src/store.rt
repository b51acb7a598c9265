// What a store is asked.
ghost use Rattle.std.specs.Prelude.{◌≡◌, nat_le};
ghost use Rattle.model.specs.Parts.{Keyed, none_held};
ghost use Rattle.cells.specs.Stores.{put_answer, after_put};

use crate::fault::CellFault;
use crate::key::StoreKey;

// Values by their keys, no more than a limit.
pub trait Store {
    type Key: StoreKey;

    type Value: Copy;

    // How many keys it may hold, how many it holds, and which value each has. From a new store of this crate on, or once any is
    // emptied, the calls keep the count to the keys.
    ghost meaning: { Self → Keyed Self.Key Self.Value };

    // Forgets all keys.
    fn empty(&mut self)
        ensures kept { meaning self.new ≡ none_held (meaning self.old).limit };

    // How many keys are held.
    fn count(&self) -> usize
        ensures value { result ≡ (meaning self.now).count };

    // How many keys may be held.
    fn limit(&self) -> usize
        ensures value { result ≡ (meaning self.now).limit };

    // Whether as many keys are held as may be.
    final fn is_full(&self) -> bool
        ensures value { result ≡ nat_le (meaning self.now).limit (meaning self.now).count }
    {
        self.count() >= self.limit()
    }

    // The value of a key, if it is held.
    fn look(&self, key: Self::Key) -> Option<Self::Value>
        ensures value { result ≡ (meaning self.now).find key };

    // Gives a key a value, in place of the one that it had. It is refused, and changes nothing, if the key is not held and there
    // is no room for it.
    fn put(&mut self, key: Self::Key, value: Self::Value) -> Result<(), CellFault>
        ensures answered { result ≡ put_answer (meaning self.old) key }
        ensures kept { meaning self.new ≡ after_put Self.Key.PartialEq.eq (meaning self.old) key value };
}
