// Lists of puts, on any store.
ghost use Rattle.std.specs.Prelude.{◌≡◌, ◌≤◌, reverse};
ghost use Rattle.cells.specs.Puts.{keys_named, puts_taken, last_put, meant_after};
ghost use Rattle.cells.specs.Examples.{AnswersShown, PutsShown, ListsShown, HomesApart};

use crate::store::Store;

// Empties the store and makes the puts in turn, whatever is refused.
fn put_all<S: Store>(store: &mut S, puts: &[(S::Key, S::Value)])
    ensures kept { S.meaning store.new ≡ meant_after S.Key.PartialEq.eq (S.meaning store.old).limit puts.now }
{
    store.empty();
    for put in puts {
        let _ = store.put(put.0, put.1);
    }
}

// Empties the store, makes the puts in turn, whatever is refused, and looks at a key: whichever store it is, the key has the value
// that was put last for it, of the puts that were taken.
pub fn look_after<S: Store>(
    store: &mut S,
    puts: &[(S::Key, S::Value)],
    key: S::Key,
) -> Option<S::Value>
    ensures last { result ≡ last_put S.Key.PartialEq.eq (puts_taken S.Key.PartialEq.eq (S.meaning store.old).limit puts.now) key }
    ensures kept { S.meaning store.new ≡ meant_after S.Key.PartialEq.eq (S.meaning store.old).limit puts.now }
    ensures roomy { keys_named S.Key.PartialEq.eq (reverse puts.now) ≤ (S.meaning store.old).limit
        → result ≡ last_put S.Key.PartialEq.eq (reverse puts.now) key }
{
    put_all(store, puts);
    store.look(key)
}

// Examples, by computation. It computes nothing: its contract names them.
pub fn examples_hold()
    ensures answers { AnswersShown }
    ensures puts { PutsShown }
    ensures lists { ListsShown }
    ensures apart { HomesApart }
{}
