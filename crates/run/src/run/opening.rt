// How a run is opened.
ghost use Rattle.std.specs.Prelude.{◌≡◌, []};
ghost use Rattle.run.specs.Runs.{opening, opening_of};
ghost use Rattle.run.specs.Lawful.{Led};
ghost use Rattle.run.specs.Tokens.{token_of};

use super::Run;
use crate::parts::Parts;
use crate::token::Token;
use cells::Store;
use model::{Cell, History, Stage};
use order::Keeper;

// What a run is opened with: its job, how many events it may take, and its parts, whatever they hold.
#[derive(Drop)]
pub struct Opening<
    K: Keeper,
    S: Store<Key = Cell, Value = History>,
    N: Store<Key = u64, Value = u64>,
> {
    pub job: u64,
    pub event_limit: u64,
    pub keeper: K,
    pub store: S,
    pub names: N,
}

impl<K: Keeper, S: Store<Key = Cell, Value = History>, N: Store<Key = u64, Value = u64>> Opening<
    K,
    S,
    N,
> {
    // Opens the run.
    pub fn open(self) -> (Run<K, S, N>, Token)
        ensures led { Led K.meaning S.meaning N.meaning (opening_of K.meaning S.meaning N.meaning self) [] result.0 }
        ensures token { result.1 ≡ token_of self.job }
    {
        Run::open(
            self.job,
            self.event_limit,
            self.keeper,
            self.store,
            self.names,
        )
    }
}

impl<K: Keeper, S: Store<Key = Cell, Value = History>, N: Store<Key = u64, Value = u64>> Run<
    K,
    S,
    N,
> {
    // Takes the parts, empties them, and opens a run over them, with its token.
    pub fn open(job: u64, event_limit: u64, keeper: K, store: S, names: N) -> (Run<K, S, N>, Token)
        ensures led { Led K.meaning S.meaning N.meaning (opening K.meaning S.meaning N.meaning job event_limit keeper store names) [] result.0 }
        ensures token { result.1 ≡ token_of job }
    {
        let (mut keeper, mut store, mut names) = (keeper, store, names);
        keeper.empty();
        store.empty();
        names.empty();
        let parts = Parts {
            keeper,
            store,
            names,
            taken: 0,
        };
        let run = Run {
            parts,
            job,
            limit: event_limit,
            stage: Stage::Feeding,
        };
        (run, Token::new(job))
    }
}
