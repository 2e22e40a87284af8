//! A log that begins with a snapshot, in the place of all that led to it.
ghost use Rattle.std.specs.Prelude.{◌≡◌, ◌≢◌, ◌<◌, ◌^◌, ◌∷◌, [], true, false, length, map, IfOk, IfErr, OnOk, IsTrue};
ghost use Rattle.std.specs.List.Sorted.{IsStrictlySortedBy};
ghost use Rattle.sqlite_disk.specs.Disk.{Only};
ghost use Rattle.pb_snapshots.specs.Snapshot.{snapshot_value};
ghost use Rattle.pb_snapshots.specs.VersionWalks.{commit_cmp, commit_of_version};
ghost use Rattle.pb_keeper.specs.Stats.{kept_table};
ghost use Rattle.pb_keep.specs.Anew.{BeginsAnew, HasVersions, WhyNoRecord, WhyNotAnew, WhyNotBegun};
ghost use Rattle.pb_keep.specs.Kept.{head};
ghost use Rattle.pb_keep.specs.Changed.{why_refused, why_stopped, WhyNotChanged};
ghost use Rattle.pb_keep.specs.Words.{FitsSnapshot, IsAtRest, IsSnapshotTaken, header, last_timestamp, snapshot_bytes};
ghost use Rattle.pb_base.specs.Growths.{refused_growth};
ghost use Rattle.pb_keep.specs.declared.compact.SnapshotFault.TheVariants as ends;

use crate::head::head_of;
use crate::keeper::Keeper;
use pb_base::NoMemory;
use pb_keeper::Stopped;
use pb_log::{Log, LogFault};
use pb_snapshots::{Snapshot, snapshot_record, take_snapshot};
use pb_state::CarryFault;
use pb_store::Tablet;
use sqlite_disk::Disk;
use std::alloc::{AllocError, Global};
use thiserror::Error;

// One more than the most bytes of a record.
const TOO_LONG: usize = 4_294_967_296;

/// Why no log was begun with a snapshot of a table, or why a table got no other observers.
#[derive(Debug, Drop, Error)]
pub enum SnapshotFault {
    #[error("{0}")]
    NoMemory(NoMemory),
    /// The new log failed.
    #[error("{0}")]
    Log(LogFault),
    /// A line waits, whose change isn't in the table yet.
    #[error("a line waits")]
    LinesWait,
    /// The table has given out its last timestamp, so that none would be left for a change.
    #[error("no timestamp is left")]
    NoTimestamp,
    /// The new log has records.
    #[error("the new log has records")]
    NotNew,
    /// A cell holds what no snapshot has: data a stamp, or an acknowledgment anything but the start of its transaction.
    #[error("the table can't be written")]
    Unwritable,
    /// The record of the snapshot would have 2^32 bytes or more.
    #[error("the snapshot is too large")]
    TooLarge,
}

impl From<NoMemory> for SnapshotFault {
    ghost from_gives = { λ e f. f ≡ ends.NoMemory e };

    fn from(e: NoMemory) -> SnapshotFault {
        SnapshotFault::NoMemory(e)
    }
}

impl From<LogFault> for SnapshotFault {
    ghost from_gives = { λ e f. f ≡ ends.Log e };

    fn from(e: LogFault) -> SnapshotFault {
        SnapshotFault::Log(e)
    }
}

impl From<CarryFault> for SnapshotFault {
    ghost from_gives = { λ e f. f ≡ why_refused e };

    fn from(e: CarryFault) -> SnapshotFault {
        match e {
            CarryFault::NoMemory(refused) => SnapshotFault::NoMemory(refused),
            // No version of a table that keeps changes is refused so.
            _ => SnapshotFault::Unwritable,
        }
    }
}

impl From<Stopped> for SnapshotFault {
    ghost from_gives = { λ e f. f ≡ why_stopped e };

    fn from(e: Stopped) -> SnapshotFault {
        match e {
            Stopped::NoMemory(refused) => SnapshotFault::NoMemory(refused),
            // On a table that keeps changes nothing else stops a run.
            Stopped::Refused(_) | Stopped::Conflict => SnapshotFault::NoTimestamp,
        }
    }
}

// The record of a snapshot.
fn record_of(alloc: Global, snapshot: &Snapshot) -> Result<Vec<u8>, SnapshotFault>
    ensures bytes { IfOk result (λ v. v.items ≡ snapshot_bytes (snapshot_value snapshot.now)) }
    ensures fits { OnOk result (FitsSnapshot (snapshot_value snapshot.now)) }
    ensures short { IfOk result (λ v. length v.items < 2 ^ 32) }
    ensures why { IfErr result (WhyNoRecord (snapshot_value snapshot.now)) }
{
    let Some(record) = snapshot_record(alloc, snapshot)? else {
        return Err(SnapshotFault::Unwritable);
    };
    if record.len() >= TOO_LONG {
        return Err(SnapshotFault::TooLarge);
    }
    Ok(record)
}

// Begins a new log of this limit and this manifest with a record.
fn begin_log<E: Disk + Drop>(
    alloc: Global,
    log: &mut Log<E>,
    limit: u64,
    manifest: &[u8],
    item: &[u8],
) -> Result<(), SnapshotFault>
    requires usable { IsTrue (E.is_usable log.old.disk) }
    requires restarted { Only (E.seen log.old.disk) (E.may_leave log.old.disk) }
    requires short { length manifest.now < 2 ^ 30 }
    requires small { length item.now < 2 ^ 32 }
    ensures begun { OnOk result (IsTrue (E.is_clean log.new.disk)
        → IsAtRest (E.seen log.new.disk) (E.may_leave log.new.disk) log.new.end
        (header (head limit manifest.now) ∷ item.now ∷ [])) }
    ensures why { IfErr result (λ e. IsTrue (E.is_clean log.new.disk)
        → WhyNotBegun (head limit manifest.now) (E.faults log.old.disk)
        (E.faults log.new.disk) (E.seen log.old.disk) e) }
{
    let head = head_of(alloc, limit, manifest)?;
    if !log.open(alloc, &head)?.is_empty() {
        return Err(SnapshotFault::NotNew);
    }
    log.put(alloc, item)?;
    Ok(())
}

impl<T: Tablet, D: Disk + Drop> Keeper<T, D> {
    // Whether no line waits.
    fn is_idle(&self) -> bool
        ensures idle { result ≡ true → self.now.waiting.items.items ≡ [] }
        ensures busy { result ≡ false → self.now.waiting.items.items ≢ [] }
    {
        self.waiting.items.is_empty()
    }

    // A snapshot of the table. It is taken where no line waits, and a timestamp is left.
    pub(crate) fn snapshot(&self, alloc: Global) -> Result<Snapshot, SnapshotFault>
        ensures room { OnOk result (self.now.state.clock < last_timestamp) }
        ensures taken { IfOk result (λ s. IsSnapshotTaken
            (kept_table self.now.state self.now.stats.items) (snapshot_value s)) }
        ensures rising { IfOk result (λ s. IsStrictlySortedBy commit_cmp
            (map commit_of_version s.cells.items)) }
        ensures why { IfErr result (WhyNotChanged self.now.waiting.items.items self.now.state
            self.now.state) }
    {
        if !self.is_idle() {
            return Err(SnapshotFault::LinesWait);
        }
        if self.state.clock().0 == u64::MAX {
            return Err(SnapshotFault::NoTimestamp);
        }
        let snapshot = take_snapshot(alloc, &self.state, &self.stats)?;
        Ok(snapshot)
    }

    /// Begins a new log of this limit of entries and this manifest with a snapshot of the table: the newest version of each cell, and all versions of the
    /// cells that an observer isn't up to date on. Returns how many they are. The keeper's own log is left as it is. The caller has to
    /// give the manifest of the table's observers.
    pub fn snapshot_into<E: Disk + Drop>(
        &self,
        alloc: Global,
        log: &mut Log<E>,
        limit: u64,
        manifest: &[u8],
    ) -> Result<usize, SnapshotFault>
        requires usable { IsTrue (E.is_usable log.old.disk) }
        requires restarted { Only (E.seen log.old.disk) (E.may_leave log.old.disk) }
        requires short { length manifest.now < 2 ^ 30 }
        ensures begun { IfOk result (λ n. IsTrue (E.is_clean log.new.disk)
            → BeginsAnew limit manifest.now (kept_table self.now.state self.now.stats.items) n
            (E.seen log.new.disk) (E.may_leave log.new.disk) log.new.end) }
        ensures versions { IfOk result
            (HasVersions (kept_table self.now.state self.now.stats.items)) }
        // A fault has its cause.
        ensures cause { IfErr result (λ e. IsTrue (E.is_clean log.new.disk)
            → WhyNotAnew self.now.waiting.items.items
            (kept_table self.now.state self.now.stats.items)
            (head limit manifest.now) (E.faults log.old.disk) (E.faults log.new.disk)
            (E.seen log.old.disk) e) }
    {
        let snapshot = self.snapshot(alloc)?;
        let record = record_of(alloc, &snapshot)?;
        begin_log(alloc, log, limit, manifest, &record)?;
        Ok(snapshot.cells.len())
    }
}
