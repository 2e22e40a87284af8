//! A lock is taken off a cell whose primary has none any more.
ghost use Rattle.std.specs.Prelude.{◌≡◌, IfOk, OnErr, None};
ghost use Rattle.pb_steps.specs.Steps.{step_reason, TableStep};

use crate::commit::commit_cell;
use crate::parts::Parts;
use crate::readings::{any_lock_on, commit_of, has_lock};
use crate::settle::erase_edits;
use pb_base::{Cell, NoMemory};
use pb_steps::{Answer, Step};
use pb_store::Tablet;

impl<T: Tablet> Parts<T> {
    pub(crate) fn clear(&mut self, seat: u32, cell: &Cell) -> Result<Answer, NoMemory>
        requires { step_reason self.old seat (Step.Clear cell.now) ≡ None }
        ensures taken { IfOk result (λ a. TableStep self.old seat
            (Step.Clear cell.now) a self.new) }
        ensures same { OnErr result (self.new ≡ self.old) }
    {
        let Some((start, primary)) = any_lock_on(&self.table, cell) else {
            return Ok(Answer::Absent);
        };
        // The primary's lock comes before its write record, since while it stands its transaction is undecided.
        if primary == *cell || has_lock(&self.table, &primary, start) {
            return Ok(Answer::Waits);
        }
        match commit_of(&self.table, &primary, start) {
            Some(commit) => {
                commit_cell(&mut self.table, &self.observers, cell, start, commit)?;
                Ok(Answer::CommittedAt(commit))
            }
            None => {
                self.table.apply(&erase_edits(cell, start))?;
                Ok(Answer::RolledBack)
            }
        }
    }
}
