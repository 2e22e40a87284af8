//! Whether two steps are the same, down to what they declare. They are compared by hand, since an equality of shared
//! pointers isn't one of what they hold. Seats and journal are compared so when a run ends.
ghost use Rattle.std.specs.Prelude.{◌≡◌, ◌↔◌, IsTrue};
ghost use Rattle.pb_steps.specs.declared.step.Step.TheVariants.{Declare};

use crate::step::{Declaration, Declared, Step};
use pb_base::Ts;

impl Declared {
    /// Whether the same is declared.
    pub fn is_same(&self, other: &Declared) -> bool
        ensures { IsTrue result ↔ (self.now ≡ other.now) }
    {
        match (self, other) {
            (Declared::Script(a), Declared::Script(b)) => a.is_same(b),
            (Declared::Run(m, a), Declared::Run(n, b)) => *m == *n && a.get().is_same(b.get()),
            _ => false,
        }
    }
}

// Whether it is the step that declares this.
fn is_declare(step: &Step, start: Ts, what: &Declaration) -> bool
    ensures { IsTrue result ↔ (step.now ≡ Declare start what.now) }
{
    match step {
        Step::Declare(its_start, its_what) => {
            *its_start == start && its_what.get().is_same(what.get())
        }
        _ => false,
    }
}

impl Step {
    /// Whether it is the same step, that declares the same where it declares.
    pub fn is_same(&self, other: &Step) -> bool
        ensures { IsTrue result ↔ (self.now ≡ other.now) }
    {
        match self {
            Step::Begin(work) => matches!(other, Step::Begin(w) if *work == *w),
            Step::Read(start, cell) =>
                matches!(other, Step::Read(s, x) if *start == *s && *cell == *x),
            Step::ReadAt(start, cell, at) => {
                matches!(other, Step::ReadAt(s, x, t) if *start == *s && *cell == *x && *at == *t)
            }
            Step::Declare(start, what) => is_declare(other, *start, what),
            Step::Prewrite(start, cell) =>
                matches!(other, Step::Prewrite(s, x) if *start == *s && *cell == *x),
            Step::Stamp(start) => matches!(other, Step::Stamp(s) if *start == *s),
            Step::CommitPrimary(start) => matches!(other, Step::CommitPrimary(s) if *start == *s),
            Step::CommitSecondary(start, cell) =>
                matches!(other, Step::CommitSecondary(s, x) if *start == *s && *cell == *x),
            Step::Settle(cell) => matches!(other, Step::Settle(x) if *cell == *x),
            Step::Clear(cell) => matches!(other, Step::Clear(x) if *cell == *x),
            Step::NextMark(after) => matches!(other, Step::NextMark(x) if *after == *x),
            Step::Sweep(cell) => matches!(other, Step::Sweep(x) if *cell == *x),
        }
    }
}
