// What an access asks of the order of steps, and of its cell's history.
ghost use Rattle.std.specs.Prelude.{◌≡◌, Some, None};
ghost use Rattle.model.specs.declared.RaceKind.TheVariants.{WriteWrite, ReadWrite};
ghost use Rattle.model.specs.Parts.{after_mark, race_on, new_left, new_right, after_read, after_write, history_in};

use cells::Store;
use model::{Cell, History, Mark, Race, RaceKind};
use order::HappensBefore;

// An access that is being judged: its step, its place and its cell.
#[derive(Clone, Copy)]
pub(crate) struct Access {
    pub(crate) step: u64,
    pub(crate) place: u64,
    pub(crate) cell: Cell,
}

impl Access {
    // The mark that it leaves.
    fn mark(self) -> Mark
        ensures { result ≡ record { step = self.step; place = self.place } }
    {
        Mark {
            step: self.step,
            place: self.place,
        }
    }

    // Whether it is on the step of a mark, or comes after it.
    fn follows<K: HappensBefore>(self, keeper: &K, mark: Mark) -> bool
        ensures { result ≡ after_mark (K.meaning keeper.now) self.step mark }
    {
        mark.step == self.step || keeper.before(mark.step, self.step)
    }

    // Its race with a marked access, if there is one and this does not come after it.
    pub(crate) fn race<K: HappensBefore>(
        self,
        keeper: &K,
        kind: RaceKind,
        mark: Option<Mark>,
    ) -> Option<Race<Cell>>
        ensures { result ≡ race_on kind (K.meaning keeper.now) self.step self.place self.cell mark None }
    {
        let mark = mark?;
        if self.follows(keeper, mark) {
            return None;
        }
        Some(Race {
            kind,
            cell: self.cell,
            first: mark.place,
            second: self.place,
        })
    }

    // The race of a write: with the last write, or else with the left read, or else with the right read.
    pub(crate) fn write_race<K: HappensBefore>(
        self,
        keeper: &K,
        history: History,
    ) -> Option<Race<Cell>>
        ensures { let m = K.meaning keeper.now in let on = race_on ReadWrite m self.step self.place self.cell in
            result ≡ race_on WriteWrite m self.step self.place self.cell history.write (on history.left (on history.right None)) }
    {
        match self.race(keeper, RaceKind::WriteWrite, history.write) {
            Some(race) => Some(race),
            None => match self.race(keeper, RaceKind::ReadWrite, history.left) {
                Some(race) => Some(race),
                None => self.race(keeper, RaceKind::ReadWrite, history.right),
            },
        }
    }

    fn left<K: HappensBefore>(self, keeper: &K, mark: Option<Mark>) -> Mark
        ensures { result ≡ new_left (K.meaning keeper.now) self.step self.place mark }
    {
        match mark {
            Some(mark) if !self.follows(keeper, mark) && !keeper.earlier(self.step, mark.step) =>
                mark,
            _ => self.mark(),
        }
    }

    fn right<K: HappensBefore>(self, keeper: &K, mark: Option<Mark>) -> Mark
        ensures { result ≡ new_right (K.meaning keeper.now) self.step self.place mark }
    {
        match mark {
            Some(mark) if !self.follows(keeper, mark) && !keeper.earlier(mark.step, self.step) =>
                mark,
            _ => self.mark(),
        }
    }

    // The history after it, if it is a read.
    pub(crate) fn after_read<K: HappensBefore>(self, keeper: &K, history: History) -> History
        ensures { result ≡ after_read (K.meaning keeper.now) self.step self.place history }
    {
        History {
            left: Some(self.left(keeper, history.left)),
            right: Some(self.right(keeper, history.right)),
            ..history
        }
    }

    // The history after it, if it is a write.
    pub(crate) fn after_write(self) -> History
        ensures { result ≡ after_write self.step self.place }
    {
        History {
            write: Some(self.mark()),
            left: None,
            right: None,
        }
    }
}

// What a store says of a cell: its history, or a blank one.
pub(crate) fn history_in<S: Store<Key = Cell, Value = History>>(store: &S, cell: Cell) -> History
    ensures { result ≡ history_in (S.meaning store.now) cell }
{
    store.look(cell).unwrap_or(History {
        write: None,
        left: None,
        right: None,
    })
}
