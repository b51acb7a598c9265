// Plays rows of numbers on both cell stores, and prints what they answer.
#![tactic(auto)]

mod numbers;
mod play;
mod row;
mod tally;

use cells::{CellRecord, NameRecord, PairRecord, Record, TreeNode};
use numbers::OneHome;
use play::{look_both, play_both};
use row::Row;
use std::io;

// How many records each store has at most. They are lent again for each row, with what the last one left in them.
const RECORDS: usize = 20_000;

// Rows of numbers, each with how many records it has.
const ROWS: [(Row, usize); 7] = [
    (Row::Rising(5_000), 5_000),
    (Row::Falling(5_000), 5_000),
    (Row::Any(20_000), 20_000),
    (Row::Any(20_000), 5_000),
    (Row::Rising(3_000), 2_000),
    (Row::Any(10), 1),
    (Row::Any(10), 0),
];

// Puts of which a store with one record refuses the second.
const PUTS: [(u64, u64); 3] = [(1, 7), (2, 8), (1, 9)];

// What keys that share one home slot are played with.
const CLASHING: (Row, usize) = (Row::Any(3_000), 1_500);

fn main(rt: HostRuntime) -> io::Result<()> {
    let alloc = rt.alloc();
    let mut records = vec![in alloc; NameRecord::BLANK; 1]?;
    let mut nodes = vec![in alloc; TreeNode::<NameRecord>::BLANK; 1]?;
    for name in 1..3 {
        let (table, tree) = look_both(records.as_mut_slice(), nodes.as_mut_slice(), &PUTS, name);
        println!(rt; "one record, name {name}: {table:?} in the table, {tree:?} in the tree")?;
    }
    let mut records = vec![in alloc; NameRecord::BLANK; RECORDS]?;
    let mut nodes = vec![in alloc; TreeNode::<NameRecord>::BLANK; RECORDS]?;
    for (row, lent) in ROWS {
        let tallies = play_both(records.as_mut_slice(), nodes.as_mut_slice(), lent, row);
        println!(rt; "names, {row}, {lent} records: {tallies}")?;
    }
    let mut records = vec![in alloc; CellRecord::BLANK; RECORDS]?;
    let mut nodes = vec![in alloc; TreeNode::<CellRecord>::BLANK; RECORDS]?;
    for (row, lent) in ROWS {
        let tallies = play_both(records.as_mut_slice(), nodes.as_mut_slice(), lent, row);
        println!(rt; "cells, {row}, {lent} records: {tallies}")?;
    }
    let (row, lent) = CLASHING;
    let mut records = vec![in alloc; PairRecord::<OneHome, u64>::BLANK; lent]?;
    let mut nodes = vec![in alloc; TreeNode::<PairRecord<OneHome, u64>>::BLANK; lent]?;
    let tallies = play_both(records.as_mut_slice(), nodes.as_mut_slice(), lent, row);
    println!(rt; "keys of one home slot, {row}, {lent} records: {tallies}")?;
    Ok(())
}
