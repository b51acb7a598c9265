// The records of a keeper, by their index. Steps, tasks and finishes have numbers, and each number has four records: those of 0
// stand in the struct, the others in lent memory.
ghost use Rattle.std.specs.Prelude.{◌≡◌, ◌+◌, ◌*◌, ◌<◌};
ghost use Rattle.model.specs.Lists.{put};
ghost use Rattle.order.specs.Rows.{limit_of, row_of};

use crate::record::OrderRecord;

// The records of number 0, and those that were lent.
#[derive(Drop)]
pub struct Rows<'a> {
    pub first: [OrderRecord; 4],
    pub lent: &'a mut [OrderRecord],
}

impl<'a> Rows<'a> {
    // How many numbers have all four records.
    pub(crate) fn limit(&self) -> u64
        ensures value { result ≡ limit_of self.now }
    {
        1 + (self.lent.len() / 4) as u64
    }

    // The record with the index i.
    pub(crate) fn get(&self, i: usize) -> OrderRecord
        requires { i < 4 * limit_of self.now }
        ensures value { result ≡ row_of self.now i }
    {
        if i < 4 {
            self.first[i]
        } else {
            self.lent[i - 4]
        }
    }

    // Writes the record with the index i.
    pub(crate) fn set(&mut self, i: usize, row: OrderRecord)
        requires { i < 4 * limit_of self.old }
        ensures limit { limit_of self.new ≡ limit_of self.old }
        ensures set { row_of self.new ≡ put (row_of self.old) i row }
    {
        if i < 4 {
            self.first[i] = row;
        } else {
            self.lent[i - 4] = row;
        }
    }
}
