//! The first marked cell after a given one.
ghost use Rattle.std.specs.Prelude.{◌≡◌, None};
ghost use Rattle.pb_steps.specs.Steps.{step_reason, TableStep};

use crate::parts::Parts;
use pb_base::Cell;
use pb_steps::{Answer, Step};
use pb_store::Tablet;

impl<T: Tablet> Parts<T> {
    pub(crate) fn next_mark(&self, seat: u32, after: Option<Cell>) -> Answer
        requires { step_reason self.now seat (Step.NextMark after) ≡ None }
        ensures { TableStep self.now seat (Step.NextMark after) result self.now }
    {
        match self.table.next_mark(after) {
            Some(cell) => Answer::Marked(cell),
            None => Answer::NoMark,
        }
    }
}
