// What either keeper holds: how places hang, its tasks and its finishes, in lent records.
ghost use Rattle.std.specs.Prelude.{◌≡◌, ◌/◌, ◌&&◌, nat_lt};
ghost use Rattle.model.specs.Lists.{put};
ghost use Rattle.order.specs.States.{state_of, Room};

mod calls;
mod climb;
mod planned;
mod refusals;
mod start;

use crate::record::{FinishRow, Link, OrderRecord, TaskRow};
use crate::rows::Rows;

// Steps, tasks and finishes are numbered from 0 as they are made; these are how many there are.
#[derive(Drop)]
pub struct Book<'a> {
    pub rows: Rows<'a>,
    pub steps: u64,
    pub tasks: u64,
    pub finishes: u64,
}

impl<'a> Book<'a> {
    // How many steps it may hold.
    pub(crate) fn limit(&self) -> u64
        ensures value { result ≡ (state_of self.now).limit }
    {
        self.rows.limit()
    }

    // Whether both steps are held.
    pub(crate) fn holds(&self, a: u64, b: u64) -> bool
        ensures value { let st = state_of self.now in result ≡ (nat_lt a st.steps && nat_lt b st.steps) }
    {
        a < self.steps && b < self.steps
    }

    // Where the place p hangs.
    pub(crate) fn link(&self, p: u64) -> Link
        requires { Room (state_of self.now) (p / 2) }
        ensures value { result ≡ (state_of self.now).link p }
    {
        match self.rows.get((p / 2 * 4 + p % 2) as usize) {
            OrderRecord::Link(link) => link,
            _ => Link { up: 0, turn: 0 },
        }
    }

    // Hangs the place p.
    pub(crate) fn hang(&mut self, p: u64, link: Link)
        requires { Room (state_of self.old) (p / 2) }
        ensures hung { state_of self.new ≡ record (state_of self.old) { link = put (state_of self.old).link p link } }
    {
        self.rows
            .set((p / 2 * 4 + p % 2) as usize, OrderRecord::Link(link));
    }

    // The task t.
    pub(crate) fn task(&self, t: u64) -> TaskRow
        requires { Room (state_of self.now) t }
        ensures value { result ≡ (state_of self.now).task t }
    {
        match self.rows.get((4 * t + 2) as usize) {
            OrderRecord::Task(task) => task,
            _ => TaskRow {
                running: false,
                current: 0,
                inner: 0,
                own: 0,
                home: 0,
            },
        }
    }

    pub(crate) fn set_task(&mut self, t: u64, task: TaskRow)
        requires { Room (state_of self.old) t }
        ensures set { state_of self.new ≡ record (state_of self.old) { task = put (state_of self.old).task t task } }
    {
        self.rows.set((4 * t + 2) as usize, OrderRecord::Task(task));
    }

    // The finish f.
    pub(crate) fn finish(&self, f: u64) -> FinishRow
        requires { Room (state_of self.now) f }
        ensures value { result ≡ (state_of self.now).finish f }
    {
        match self.rows.get((4 * f + 3) as usize) {
            OrderRecord::Finish(finish) => finish,
            _ => FinishRow {
                outer: 0,
                alive: 0,
                shut: 0,
            },
        }
    }

    pub(crate) fn set_finish(&mut self, f: u64, finish: FinishRow)
        requires { Room (state_of self.old) f }
        ensures set { state_of self.new ≡ record (state_of self.old) { finish = put (state_of self.old).finish f finish } }
    {
        self.rows
            .set((4 * f + 3) as usize, OrderRecord::Finish(finish));
    }
}
