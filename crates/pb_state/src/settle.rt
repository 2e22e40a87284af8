//! A lock is taken off its own primary, by anyone: the transaction can't commit any more.
ghost use Rattle.std.specs.Prelude.{◌≡◌, IfOk, OnErr, None};
ghost use Rattle.pb_store.specs.Contents.{Contents, AreEdits, after_edits};
ghost use Rattle.pb_steps.specs.Commits.{erase_lock};
ghost use Rattle.pb_steps.specs.Steps.{step_reason, TableStep};

use crate::parts::Parts;
use crate::readings::{any_lock_on, slot_of};
use pb_base::{Cell, NoMemory, Ts};
use pb_steps::{Answer, Step};
use pb_store::{Edit, Sort, Tablet};

// Erases lock and data of a start on a cell.
pub(crate) fn erase_edits(cell: &Cell, start: Ts) -> [Edit; 2]
    ensures edits { AreEdits result }
    ensures erased { (c : Contents)
        → after_edits result c ≡ record c { entries = erase_lock c.entries cell.now start.0 } }
{
    let lock = slot_of(cell, Sort::Lock, start);
    let data = slot_of(cell, Sort::Data, start);
    [Edit::Erase(lock), Edit::Erase(data)]
}

impl<T: Tablet> Parts<T> {
    pub(crate) fn settle(&mut self, seat: u32, cell: &Cell) -> Result<Answer, NoMemory>
        requires { step_reason self.old seat (Step.Settle cell.now) ≡ None }
        ensures taken { IfOk result (λ a. TableStep self.old seat
            (Step.Settle cell.now) a self.new) }
        ensures same { OnErr result (self.new ≡ self.old) }
    {
        let Some((start, primary)) = any_lock_on(&self.table, cell) else {
            return Ok(Answer::Absent);
        };
        if primary != *cell {
            return Ok(Answer::Locked { start, primary });
        }
        self.table.apply(&erase_edits(cell, start))?;
        Ok(Answer::RolledBack)
    }
}
