// The search back from the later of two steps.
ghost use Rattle.std.specs.Prelude.{◌≡◌, ◌<◌};
ghost use Rattle.order.specs.States.{state_of};
ghost use Rattle.order.specs.Invariants.{Plain};
ghost use Rattle.order.specs.Graphs.{ways_in, Searchable};
ghost use Rattle.edges.specs.Ways.{outlet, met, searched};

use crate::book::Book;

// The step that closed the finish in which the task of the step y lives, or 0 while it is open.
fn shut(book: &Book<'_>, y: u64) -> u64
    requires plain { Plain (state_of book.now) }
    requires searchable { Searchable (state_of book.now) }
    requires held { y < (state_of book.now).steps }
    ensures value { let w = ways_in (state_of book.now) in result ≡ w.shut (w.home y) }
{
    book.finish(book.link(2 * y).up).shut
}

// From the step a on, the last of the steps up to b by which the finishes around it were closed.
fn outlet(book: &Book<'_>, a: u64, b: u64) -> u64
    requires plain { Plain (state_of book.now) }
    requires searchable { Searchable (state_of book.now) }
    requires held { (a < (state_of book.now).steps) × (b < (state_of book.now).steps) }
    ensures value { result ≡ outlet (ways_in (state_of book.now)) b b a }
{
    let mut y = a;
    let mut next = shut(book, y);
    while y < next && next <= b {
        y = next;
        next = shut(book, y);
    }
    y
}

// Whether the way back from the step b leads over y.
fn met(book: &Book<'_>, y: u64, b: u64) -> bool
    requires plain { Plain (state_of book.now) }
    requires searchable { Searchable (state_of book.now) }
    requires held { b < (state_of book.now).steps }
    ensures value { result ≡ met (ways_in (state_of book.now)) b y b }
{
    let mut x = b;
    while y < x {
        x = book.link(2 * x + 1).up / 2;
    }
    x == y
}

// Whether a search back from the step b finds a.
pub(crate) fn searched(book: &Book<'_>, a: u64, b: u64) -> bool
    requires plain { Plain (state_of book.now) }
    requires searchable { Searchable (state_of book.now) }
    requires held { (a < (state_of book.now).steps) × (b < (state_of book.now).steps) }
    ensures value { result ≡ searched (ways_in (state_of book.now)) a b }
{
    a < b && met(book, outlet(book, a, b), b)
}
