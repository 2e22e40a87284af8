//! Whether two lists of writes are the same: a declared run's are compared with those of the expected one. They are
//! compared by recursion, since the search for a proof doesn't find an equality of slices of pairs.
ghost use Rattle.std.specs.Prelude.{◌≡◌, ◌↔◌, ◌≤◌, IsTrue, length, drop};

use crate::batch::Batch;
use crate::cell::Cell;
use crate::content::Content;

// Whether both give the same cell the same content.
fn is_same_write(a: &(Cell, Content), b: &(Cell, Content)) -> bool
    ensures { IsTrue result ↔ (a.now ≡ b.now) }
{
    a.0 == b.0 && a.1 == b.1
}

/// Whether these are the same writes, in the same order.
pub fn are_same_writes(a: &[(Cell, Content)], b: &[(Cell, Content)]) -> bool
    ensures { IsTrue result ↔ (a.now ≡ b.now) }
{
    match a {
        [] => b.is_empty(),
        [first, rest @ ..] => match b {
            [] => false,
            [other, others @ ..] => is_same_write(first, other) && are_same_writes(rest, others),
        },
    }
}

// From this place on. By places and not by slices, since a batch keeps rows and columns, and `Batch::at` makes the
// cell.
fn is_same_from(a: &Batch, b: &Batch, from: usize) -> bool
    requires same { length a.now ≡ length b.now }
    requires within { from ≤ length a.now }
    ensures { IsTrue result ↔ (drop from a.now ≡ drop from b.now) }
{
    if from == a.len() {
        return true;
    }
    is_same_write(&a.at(from), &b.at(from)) && is_same_from(a, b, from + 1)
}

impl Batch {
    /// Whether it has the same writes, in the same order.
    pub fn is_same(&self, other: &Batch) -> bool
        ensures { IsTrue result ↔ (self.now ≡ other.now) }
    {
        // The number comes first, since what follows asks for each place in both.
        self.len() == other.len() && is_same_from(self, other, 0)
    }
}
