// Rounds on both keepers: lists made at random, and a list of a shape. The memory of the keepers is lent anew for each list, with what
// the last one left in it.
ghost use Rattle.std.specs.Prelude.{◌≡◌, IfOk, length};
ghost use Rattle.orderplay.specs.Plays.{limit_of, played};
ghost use Rattle.orderplay.specs.Rounds.{random_tally, shape_tally};

use crate::dice::Dice;
use crate::lists::{Shape, any_calls};
use crate::play::{play_graph, play_tree};
use crate::tally::Tallies;
use order::{OrderCall, OrderRecord};
use std::alloc::{AllocError, Global};

// The state that the dice begin with.
const SEED: u64 = 1;

// Plays the calls on both keepers, over so many of their records, or all that there are.
fn play_both(
    tree: &mut [OrderRecord],
    graph: &mut [OrderRecord],
    lent: usize,
    calls: &[OrderCall],
    tallies: &mut Tallies,
)
    ensures tree { tallies.new.tree ≡ played (limit_of (length tree.old) lent) calls.now tallies.old.tree }
    ensures graph { tallies.new.graph ≡ played (limit_of (length graph.old) lent) calls.now tallies.old.graph }
{
    let most = lent.min(tree.len());
    play_tree(&mut tree[..most], calls, &mut tallies.tree);
    let most = lent.min(graph.len());
    play_graph(&mut graph[..most], calls, &mut tallies.graph);
}

// Plays so many lists made at random.
pub fn play_random(
    alloc: Global,
    tree: &mut [OrderRecord],
    graph: &mut [OrderRecord],
    lists: u32,
) -> Result<Tallies, AllocError>
    ensures tree { IfOk result (λ t. t.tree ≡ random_tally (length tree.old) lists) }
    ensures graph { IfOk result (λ t. t.graph ≡ random_tally (length graph.old) lists) }
    ensures agreed { length tree.old ≡ length graph.old → IfOk result (λ t. t.tree ≡ t.graph) }
{
    let mut dice = Dice { state: SEED };
    let mut tallies = Tallies::new();
    for _list in 0..lists {
        let lent = dice.roll(200);
        let count = dice.roll(64);
        let calls = any_calls(alloc, &mut dice, count)?;
        // `as`: no `From` leads from `u32` to `usize`.
        play_both(tree, graph, lent as usize, calls.as_slice(), &mut tallies);
    }
    Ok(tallies)
}

// Plays the list of a shape, over all records.
pub fn play_shape(
    alloc: Global,
    tree: &mut [OrderRecord],
    graph: &mut [OrderRecord],
    shape: Shape,
) -> Result<Tallies, AllocError>
    ensures tree { IfOk result (λ t. t.tree ≡ shape_tally (length tree.old) shape) }
    ensures graph { IfOk result (λ t. t.graph ≡ shape_tally (length graph.old) shape) }
    ensures agreed { length tree.old ≡ length graph.old → IfOk result (λ t. t.tree ≡ t.graph) }
{
    let mut tallies = Tallies::new();
    let calls = shape.calls(alloc)?;
    play_tree(tree, calls.as_slice(), &mut tallies.tree);
    play_graph(graph, calls.as_slice(), &mut tallies.graph);
    Ok(tallies)
}
