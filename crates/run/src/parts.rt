// What a run holds of its past.

mod kinds;

use cells::Store;
use model::{Cell, History};
use order::Keeper;

// `taken` counts the events; the names have the keeper's number of each spawned task.
#[derive(Drop)]
pub struct Parts<
    K: Keeper,
    S: Store<Key = Cell, Value = History>,
    N: Store<Key = u64, Value = u64>,
> {
    pub(crate) keeper: K,
    pub(crate) store: S,
    pub(crate) names: N,
    pub(crate) taken: u64,
}
