//! A log of which the first changes are made again: as many as may be, or as can be made.
ghost use Rattle.std.specs.Prelude.{◌≡◌, ◌⊎◌, ◌∷◌, ◌<◌, ◌^◌, ℕ, List, Option, [], length, IfErr, IfOk, OnOk, IsTrue};
ghost use Rattle.sqlite_disk.specs.Disk.{Only};
ghost use Rattle.pb_base.specs.Batch.{Writes};
ghost use Rattle.pb_keeper.specs.Keeps.{opened_table};
ghost use Rattle.pb_keeper.specs.Stats.{kept_table};
ghost use Rattle.pb_log.specs.Header.{header};
ghost use Rattle.pb_log.specs.Records.{IsLog, IsReadable, IsShutOrNew};
ghost use Rattle.pb_snapshots.specs.Snapshot.{SnapshotOf};
ghost use Rattle.pb_keep.specs.Causes.{IsOfLogFile, WhyNotMadeAgain};
ghost use Rattle.pb_keep.specs.Conversations.{keeper_view};
ghost use Rattle.pb_keep.specs.FirstOpened.{IsNotStopped, IsOpenedTo, MakesFewer};
ghost use Rattle.pb_keep.specs.Kept.{head, origin_of, HasChanges};

use crate::anew::{count_changes, make_first};
use crate::fault::KeepFault;
use crate::first::begin;
use crate::head::head_of;
use crate::keeper::Keeper;
use pb_keeper::tables_keep_their_changes;
use pb_log::files_have_one_reading;
use pb_snapshots::snapshots_are_no_texts;
use pb_store::Tablet;
use sqlite_disk::Disk;
use std::alloc::Global;

/// How many changes of a log were made again.
#[derive(Drop)]
pub enum Opened {
    /// So many of so many: all of them, or as many as were asked for. Each of both numbers is at most the greatest `u64`.
    Made(u64, u64),
    /// After so many, one was stopped for this reason. A beginning of it may stand in the table.
    Stopped(u64, KeepFault),
}

impl<T: Tablet, D: Disk + Drop> Keeper<T, D> {
    /// Opens the log of this manifest and of the keeper's limit, or makes it, begins with its snapshot, if it has one, and makes its first changes again, in
    /// order: at most `most` of them, or all where no number is given. The manifest has less than 2^30 bytes.
    ///
    /// The log has changes that the table may not have. So only questions may follow; and where a change was stopped, or the call fails,
    /// `close` alone.
    pub fn open_first(
        &mut self,
        alloc: Global,
        manifest: &[u8],
        most: Option<u64>,
    ) -> Result<Opened, KeepFault>
        requires usable { IsTrue (D.is_usable self.old.log.disk) }
        requires restarted { Only (D.seen self.old.log.disk) (D.may_leave self.old.log.disk) }
        requires short { length manifest.now < 2 ^ 30 }
        requires opened { kept_table self.old.state self.old.stats.items
            ≡ opened_table self.old.state.observers }
        ensures usable { OnOk result (IsTrue (D.is_usable self.new.log.disk)) }
        ensures waiting { self.new.waiting ≡ self.old.waiting }
        ensures limit { self.new.limit ≡ self.old.limit }
        // Where no change was stopped, the table has the same observers.
        ensures observers { IfOk result (λ opened. IsNotStopped opened
            → self.new.state.observers ≡ self.old.state.observers) }
        // The table keeps the first changes of the log, which still has all of them.
        ensures made { (written : Option (List ℕ)) → IfOk result (λ opened.
            IsTrue (D.is_clean self.new.log.disk)
            → IsOpenedTo self.old.state.observers manifest.now (D.seen self.old.log.disk) most
            (keeper_view D.seen D.may_leave self.new written) opened) }
        ensures fewer { IfOk result (MakesFewer most) }
        // A fault has its cause in the file or the disk.
        ensures cause { IfErr result (λ e. IsTrue (D.is_clean self.new.log.disk)
            → WhyNotMadeAgain self.old.limit self.old.state.observers manifest.now
            (D.faults self.old.log.disk) (D.faults self.new.log.disk)
            (D.seen self.old.log.disk) self.new.state e) }
        // Where the log can't be opened for what it has, it is as it was.
        ensures same { IfErr result (λ e. IsOfLogFile e
            → D.seen self.new.log.disk ≡ D.seen self.old.log.disk) }
        // On every path a crash leaves the records that the log has, or the first if it had none.
        ensures records { IsTrue (D.is_clean self.new.log.disk)
            → (rs : List (List ℕ)) → IsLog (D.seen self.old.log.disk) rs
            → (c : List ℕ) → D.may_leave self.new.log.disk c
            → IsLog c rs
            ⊎ ((rs ≡ []) × IsLog c (header (head self.old.limit manifest.now) ∷ [])) }
        // So it leaves the changes that the log has.
        ensures crash { IsTrue (D.is_clean self.new.log.disk)
            → (snapshot : Option SnapshotOf) (changes : List Writes)
            → HasChanges (origin_of self.old.limit manifest.now snapshot) changes
            (D.seen self.old.log.disk)
            → (c : List ℕ) → D.may_leave self.new.log.disk c
            → HasChanges (origin_of self.old.limit manifest.now snapshot) changes c }
        // Where each byte of a torn write is old or new, what may be opened may be opened then.
        ensures shut { ((d : _) → IsTrue (D.is_mixing d)) → IsTrue (D.is_clean self.new.log.disk)
            → (rs : List (List ℕ)) → IsReadable (D.seen self.old.log.disk) rs
            → (c : List ℕ) → D.may_leave self.new.log.disk c → IsShutOrNew c }
    {
        // For the proof: as it begins, a table keeps no change of its own; and a file has one list of records, of which that of a
        // snapshot is no text.
        tables_keep_their_changes();
        files_have_one_reading();
        snapshots_are_no_texts();
        let head = head_of(alloc, self.limit, manifest)?;
        let mut records = self.log.open(alloc, &head)?;
        self.since = begin(alloc, &mut self.state, &mut self.stats, &mut records)?;
        let all = count_changes(alloc, &records)?;
        let mut made = 0u64;
        match make_first(
            alloc,
            &mut self.state,
            &mut self.stats,
            records,
            most,
            &mut made,
            self.limit,
        ) {
            Ok(()) => Ok(Opened::Made(made, all)),
            Err(fault) => Ok(Opened::Stopped(made, fault)),
        }
    }
}
