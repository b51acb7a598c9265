// What a keeper keeps in the memory that it is lent. Each step has two places, 2 x and 2 x + 1 of the step x, and all places hang
// together in a tree, with place 0 at its root; the keeper says what stands at them.

// Where a place hangs: from which other place, and by which turn of those that there are at that one. Place 0 hangs from itself.
#[derive(Clone, Copy)]
pub struct Link {
    pub up: u64,
    pub turn: u64,
}

// Where the two places of a new step hang: 2 x for a node, if one goes by the step, and 2 x + 1 for the step itself.
#[derive(Clone, Copy)]
pub struct Seat {
    pub node: Link,
    pub leaf: Link,
}

// A task: whether it runs, its current step, its innermost finish, how many of its finishes are its own, and the one that it
// lives in.
#[derive(Clone, Copy)]
pub struct TaskRow {
    pub running: bool,
    pub current: u64,
    pub inner: u64,
    pub own: u64,
    pub home: u64,
}

// A finish: the one around it, how many tasks live in it, and the step that closed it, or 0 while it is open (step 0 closes none).
#[derive(Clone, Copy)]
pub struct FinishRow {
    pub outer: u64,
    pub alive: u64,
    pub shut: u64,
}

// One record of the memory that a keeper is lent. A number has four: the links of two places, a task and a finish.
#[derive(Clone, Copy)]
pub enum OrderRecord {
    Link(Link),
    Task(TaskRow),
    Finish(FinishRow),
}

impl OrderRecord {
    // A record to make the memory of, which may hold anything when it is lent.
    pub const BLANK: OrderRecord = OrderRecord::Link(Link { up: 0, turn: 0 });
}
