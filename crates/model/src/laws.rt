// The laws of the rules. Each function is a theorem that its contract names: it has nothing to compute. Each clause says for
// itself what it ranges over, so that it can be read alone.
ghost use Rattle.std.specs.Prelude.{ℕ, List};
ghost use Rattle.model.specs.declared.Call.{Call};
ghost use Rattle.model.specs.Past.{Past};
ghost use Rattle.model.specs.Accesses.{CellKind};
ghost use Rattle.model.specs.Rules.{Limits};
ghost use Rattle.model.specs.Laws.{StrictOrder, ToldSame, CleanSettled, RacesReal, AnyOrder, FirstNamed};
ghost use Rattle.model.specs.Runs.{Opening, Upheld};
ghost use Rattle.model.specs.Orders.{Order};
ghost use Rattle.model.specs.Reached.{Reached, OrderLaws};
ghost use Rattle.model.specs.Trees.{Labelled, tree_of};
ghost use Rattle.model.specs.Shapes.{Shaped};
ghost use Rattle.model.specs.Readers.{TwoSuffice, TwoFound, TwoKept};
ghost use Rattle.model.specs.Link.{StepsTell};
ghost use Rattle.model.specs.Parts.{MarksKept, JudgedByParts};
ghost use Rattle.model.specs.Holding.{AnsweredByParts};
ghost use Rattle.model.specs.Examples.{ExamplesHold, RefusalsMet, FirstRefusals, LabelsTold};

// Law 1. A past is clean exactly when each of its accesses follows the same write in every legal order, or none in every one.
pub fn clean_exactly_when_settled<C>()
    ensures settled { (k : CellKind C) (l : Limits) → CleanSettled k l }
{}

// Law 2. A raced past was clean before its last event, and two legal orders put the named pair side by side, once each way round.
pub fn race_is_real_and_latest<C>()
    ensures real { (k : CellKind C) (l : Limits) → RacesReal k l }
{}

// Law 3. Every legal order of a clean past has all its events, and is clean under the same limits.
pub fn any_order_is_as_good<C>()
    ensures clean { (k : CellKind C) (l : Limits) → AnyOrder k l }
{}

// Law 4. The first access that conflicts with an earlier one that is not before it is the one that is reported.
pub fn first_unordered_conflict_is_the_race<C>()
    ensures first { (k : CellKind C) (l : Limits) → FirstNamed k l }
{}

// Law 5. Happens-before is its test, a strict partial order that the recorded order keeps; read word for word, its rules give
// the same relation on every past whose events were taken.
pub fn before_is_its_test<C>()
    ensures strict { (h : Past C) → StrictOrder h }
    ensures told { (k : CellKind C) (l : Limits) → ToldSame k l }
{}

// Law 6. The program structure tree that a keeper's calls grow has labels that say what is before what and what is earlier,
// for every order that the calls can reach; the tree keeps its shape, and the laws of an order hold.
pub fn reached_orders_have_trees()
    ensures labels { (limit : ℕ) (m : Order) (r : Reached limit m) → Labelled m (tree_of r).step }
    ensures shape { (limit : ℕ) (m : Order) (r : Reached limit m) → Shaped m (tree_of r) }
    ensures laws { (limit : ℕ) (m : Order) → Reached limit m → OrderLaws m }
{}

// Law 8, of steps. The order after a past whose events were taken is one that a keeper's calls reach; it says of the steps of
// two accesses which is before which, and of the steps of all events how they stand in serial order.
pub fn steps_tell_events<C>()
    ensures linked { (k : CellKind C) (l : Limits) → StepsTell k l }
{}

// Law 7. Of any readers two suffice: a step that is or comes after the leftmost and the rightmost is or comes after each.
// There always are such two, and they can be kept up to date.
pub fn two_readers_suffice()
    ensures suffice { (limit : ℕ) (m : Order) → Reached limit m → TwoSuffice m }
    ensures found { (limit : ℕ) (m : Order) → Reached limit m → TwoFound m }
    ensures kept { (limit : ℕ) (m : Order) → Reached limit m → TwoKept m }
{}

// Law 7, of marks. The marks that are kept up to date are the marks of the definition.
pub fn marks_are_kept<C>()
    ensures kept { (k : CellKind C) (l : Limits) → MarksKept k l }
{}

// Law 8. What the rules say of an event on a clean past can be said from the parts that a run holds of it; and so can what
// they answer to every list of calls.
pub fn judged_by_parts<C>()
    ensures judged { (k : CellKind C) (l : Limits) → JudgedByParts k l }
    ensures answered { (k : CellKind C) (o : Opening) (cs : List (Call C)) → AnsweredByParts k o cs }
{}

// Laws 1 to 4 hold of the events taken, and the race named, by every list of calls on a run with any opening.
pub fn every_list_of_calls_is_upheld<C>()
    ensures upheld { (k : CellKind C) (o : Opening) (cs : List (Call C)) → Upheld k o cs }
{}

// Law 9. The worked examples.
pub fn examples_hold()
    ensures eleven { ExamplesHold }
    ensures refusals { RefusalsMet }
    ensures first { FirstRefusals }
    ensures labels { LabelsTold }
{}
