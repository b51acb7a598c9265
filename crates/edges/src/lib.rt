// The graph of steps that an order keeper's calls grow, and the laws by which it tells the order. There is nothing to compute here:
// each function is a theorem that its contract names.
#![tactic(auto)]

ghost use Rattle.std.specs.Prelude.{◌≡◌, ℕ, ◌<◌};
ghost use Rattle.model.specs.Orders.{Order};
ghost use Rattle.model.specs.Labels.{left};
ghost use Rattle.model.specs.Reached.{Reached};
ghost use Rattle.edges.specs.Ways.{Ways, way, ways_of, searched};
ghost use Rattle.edges.specs.Edges.{EdgesTell};

// In every order that calls reach, the graph that the same calls grow tells what is before what, by its edges and by a search; and the
// ways back to step 0 tell serial order.
pub fn edges_tell_order()
    ensures edges { (limit : ℕ) (m : Order) (r : Reached limit m) → EdgesTell m (ways_of r) }
    ensures search { (limit : ℕ) (m : Order) (r : Reached limit m) (a b : ℕ) → a < m.steps → b < m.steps → m.before a b ≡ searched (ways_of r) a b }
    ensures serial { (limit : ℕ) (m : Order) (r : Reached limit m) (a b : ℕ) → a < m.steps → b < m.steps → m.earlier a b ≡ left (way (ways_of r) a) (way (ways_of r) b) }
{}
