//! A declared cell is locked, and its data written.
ghost use Rattle.std.specs.Prelude.{◌≡◌, IfOk, OnErr};
ghost use Rattle.pb_store.specs.Contents.{Contents, AreEdits, after_edits};
ghost use Rattle.pb_steps.specs.Prewrite.{put_lock};
ghost use Rattle.pb_steps.specs.Steps.{TableStep};
ghost use Rattle.pb_state.specs.Admitted.{Admits, TellsAdmission};

use crate::admitted::{Admitted, TransactionAt};
use crate::parts::Parts;
use crate::readings::{is_taken, slot_of};
use pb_base::{Cell, Content, NoMemory, Reason, Ts};
use pb_steps::{Answer, Phase, Step};
use pb_store::{Edit, Item, Sort, Tablet};

// Puts data and lock of a start on a cell. Data first, since they stand first: a tablet then searches once.
fn lock_edits(cell: &Cell, start: Ts, content: Content, primary: Cell) -> [Edit; 2]
    ensures edits { AreEdits result }
    ensures lock { (c : Contents)
        → after_edits result c
        ≡ record c { entries = put_lock c.entries cell.now start.0 content primary } }
{
    let data = slot_of(cell, Sort::Data, start);
    let lock = slot_of(cell, Sort::Lock, start);
    [
        Edit::Put(data, Item::Data(content)),
        Edit::Put(lock, Item::Lock(primary)),
    ]
}

impl<T: Tablet> Parts<T> {
    pub(crate) fn admit_prewrite(
        &self,
        seat: u32,
        start: Ts,
        cell: &Cell,
    ) -> Result<Admitted<'static>, Reason>
        ensures { TellsAdmission self.now seat (Step.Prewrite start cell.now) result }
    {
        let (by, transaction) = self.own(seat, start)?;
        if !transaction.phase().is_declared() {
            return Err(Reason::WrongPhase);
        }
        let Some(primary) = transaction.primary() else {
            return Err(Reason::WrongPhase);
        };
        if *cell != primary && !transaction.is_prewritten(&primary) {
            return Err(Reason::WrongPhase);
        }
        let Some(content) = transaction.content(*cell) else {
            return Err(Reason::NotDeclared);
        };
        if transaction.is_prewritten(cell) {
            return Err(Reason::AlreadyPrewritten);
        }
        Ok(Admitted::Prewrite {
            by,
            cell: *cell,
            content,
            primary,
        })
    }

    pub(crate) fn prewrite(
        &mut self,
        seat: u32,
        by: TransactionAt,
        cell: &Cell,
        content: Content,
        primary: Cell,
    ) -> Result<Answer, NoMemory>
        requires { Admits self.old seat (Admitted.Prewrite by cell.now content primary) }
        ensures taken { IfOk result (λ a. TableStep self.old seat
            (Step.Prewrite by.start cell.now) a self.new) }
        ensures same { OnErr result (self.new ≡ self.old) }
    {
        let is_taken = is_taken(&self.table, cell, by.start);
        let transaction = self.transactions.at_mut(by);
        if is_taken {
            transaction.set_phase(Phase::Failed);
            return Ok(Answer::Conflict);
        }
        let edits = lock_edits(cell, by.start, content, primary);
        transaction.prewrite(&mut self.table, *cell, &edits)?;
        Ok(Answer::Done)
    }
}
