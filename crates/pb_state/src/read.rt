//! A read in a transaction's snapshot, or in that of an earlier timestamp.
ghost use Rattle.std.specs.Prelude.{◌≡◌, IfOk, OnErr};
ghost use Rattle.pb_history.specs.Sound.{IsSoundTable};
ghost use Rattle.pb_steps.specs.Read.{read_step};
ghost use Rattle.pb_steps.specs.Reads.{read_up_to};
ghost use Rattle.pb_steps.specs.Steps.{TableStep};
ghost use Rattle.pb_state.specs.Admitted.{Admits, TellsAdmission};

use crate::admitted::{Admitted, TransactionAt};
use crate::parts::Parts;
use crate::readings::{lock_on, version_of};
use pb_base::{Cell, NoMemory, Reason, Ts};
use pb_steps::Answer;
use pb_store::Tablet;

// The timestamp up to which is read.
fn read_up_to(start: Ts, at: Option<Ts>) -> Ts
    ensures { result.0 ≡ read_up_to start.0 at }
{
    match at {
        None => start,
        Some(at) => at,
    }
}

impl<T: Tablet> Parts<T> {
    pub(crate) fn admit_read(
        &self,
        seat: u32,
        start: Ts,
        cell: &Cell,
        at: Option<Ts>,
    ) -> Result<Admitted<'static>, Reason>
        ensures { TellsAdmission self.now seat (read_step start cell.now at) result }
    {
        let (by, transaction) = self.own(seat, start)?;
        if !transaction.phase().is_reading() {
            return Err(Reason::WrongPhase);
        }
        if start < read_up_to(start, at) {
            return Err(Reason::LaterThanStart);
        }
        Ok(Admitted::Read {
            by,
            cell: *cell,
            at,
        })
    }

    /// Reads up to the start, or up to this timestamp.
    #[tactic(auto, using(pb_history::proofs::SoundHasData::keeps_data))]
    pub(crate) fn read(
        &mut self,
        seat: u32,
        by: TransactionAt,
        cell: &Cell,
        at: Option<Ts>,
    ) -> Result<Answer, NoMemory>
        requires sound { IsSoundTable self.old }
        requires admitted { Admits self.old seat (Admitted.Read by cell.now at) }
        ensures taken { IfOk result (λ a. TableStep self.old seat
            (read_step by.start cell.now at) a self.new) }
        ensures same { OnErr result (self.new ≡ self.old) }
    {
        let high = read_up_to(by.start, at);
        // Locks first, since a transaction with a lock up to here may still commit within the snapshot.
        if let Some((lock, primary)) = lock_on(&self.table, cell, high) {
            return Ok(Answer::Locked {
                start: lock,
                primary,
            });
        }
        let answer = match version_of(&self.table, cell, high) {
            Some(version) => Answer::Found {
                start: version.start,
                commit: version.commit,
                content: version.content,
            },
            None => Answer::Absent,
        };
        self.transactions
            .at_mut(by)
            .record_read(*cell, at, &answer)?;
        Ok(answer)
    }
}
