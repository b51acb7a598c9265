// An order keeper that goes by a plan.
ghost use Rattle.std.specs.Prelude.{◌≡◌, ◌+◌, ◌/◌, length};
ghost use Rattle.order.specs.States.{state_of};
ghost use Rattle.order.specs.Invariants.{Plain, plain_prop};
ghost use Rattle.order.specs.Plans.{Keeps};

use crate::book::Book;
use crate::fault::OrderFault;
use crate::keeper::{HappensBefore, Keeper, TaskStage};
use crate::plan::Planned;
use crate::record::OrderRecord;
use std::marker::PhantomData;

// The order of a job's steps, over lent records.
#[derive(Drop)]
pub struct StepKeeper<'a, P: Planned> {
    pub(crate) book: Book<'a>,
    by: PhantomData<P>,
    ghost plain: { Plain (state_of book) } by { plain_prop (state_of book) },
    ghost sound: { ∥ P.Sound (state_of book) ∥₁ },
    ghost keeps: { ∥ Keeps P.Sound P.plan ∥₁ },
}

impl<'a, P: Planned> StepKeeper<'a, P> {
    ghost use Rattle.model.specs.Orders.{emptied};
    ghost use Rattle.order.specs.Keepers.{meaning_by};

    // A keeper of 1 step, and one more for every four records, by a plan that keeps what is sound.
    pub(crate) fn over(records: &'a mut [OrderRecord]) -> StepKeeper<'a, P>
        requires { ∥ Keeps P.Sound P.plan ∥₁ }
        ensures emptied { meaning_by P.plan result ≡ emptied (1 + length records.old / 4) }
    {
        StepKeeper {
            book: Book::new(records),
            by: PhantomData,
        }
    }
}

impl<'a, P: Planned> HappensBefore for StepKeeper<'a, P> {
    ghost use Rattle.order.specs.Keepers.{meaning_by};

    ghost meaning = { meaning_by P.plan };

    fn before(&self, a: u64, b: u64) -> bool {
        P::before(&self.book, a, b)
    }

    fn earlier(&self, a: u64, b: u64) -> bool {
        P::earlier(&self.book, a, b)
    }
}

impl<'a, P: Planned> Keeper for StepKeeper<'a, P> {
    fn empty(&mut self) {
        self.book.clear();
    }

    fn spawn(&mut self, task: u64) -> Result<(u64, u64), OrderFault> {
        self.book.try_spawn::<P>(task)
    }

    fn open(&mut self, task: u64) -> Result<u64, OrderFault> {
        self.book.try_open::<P>(task)
    }

    fn close(&mut self, task: u64) -> Result<u64, OrderFault> {
        self.book.try_close::<P>(task)
    }

    fn end(&mut self, task: u64) -> Result<u64, OrderFault> {
        self.book.try_end(task)
    }

    fn tasks(&self) -> u64 {
        self.book.tasks
    }

    fn stage(&self, task: u64) -> TaskStage {
        self.book.stage(task)
    }

    fn current(&self, task: u64) -> u64 {
        self.book.current(task)
    }
}
