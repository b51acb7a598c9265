// Plays lists of calls on both order keepers, and prints what they answer.
#![tactic(auto)]

mod dice;
mod lists;
mod play;
mod rounds;
mod tally;

use lists::Shape;
use order::OrderRecord;
use rounds::{play_random, play_shape};
use std::io;

// How many lists are made at random.
const LISTS: u32 = 4000;

// How many records each keeper has: more than enough for the longest list.
const RECORDS: usize = 4000;

fn main(rt: HostRuntime) -> io::Result<()> {
    let alloc = rt.alloc();
    let mut tree = vec![in alloc; OrderRecord::BLANK; RECORDS]?;
    let mut graph = vec![in alloc; OrderRecord::BLANK; RECORDS]?;
    let (tree, graph) = (tree.as_mut_slice(), graph.as_mut_slice());
    let tallies = play_random(alloc, tree, graph, LISTS)?;
    println!(rt; "{LISTS} lists at random: {tallies}")?;
    for shape in Shape::ALL {
        let tallies = play_shape(alloc, tree, graph, shape)?;
        println!(rt; "{shape}: {tallies}")?;
    }
    Ok(())
}
