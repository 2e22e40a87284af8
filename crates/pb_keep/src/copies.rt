//! Copies of a log, and how many changes a log has.
ghost use Rattle.std.specs.Prelude.{◌≡◌, ◌≢◌, ◌⊎◌, ◌∷◌, ◌<◌, ◌^◌, [], ℕ, List, Option, length, map, IfErr, IfOk, OnOk, IsTrue};
ghost use Rattle.sqlite_disk.specs.Disk.{Only};
ghost use Rattle.pb_base.specs.Batch.{Writes};
ghost use Rattle.pb_log.specs.Header.{header, HasRecords};
ghost use Rattle.pb_log.specs.Records.{IsAtRest, IsLog, IsReadable, IsShutOrNew};
ghost use Rattle.pb_snapshots.specs.Snapshot.{SnapshotOf};
ghost use Rattle.pb_keep.specs.Causes.{IsOfLogFile};
ghost use Rattle.pb_keep.specs.Copies.{records_of, AreScripts, HasCount, WhyNoCopy, WhyNotCounted};
ghost use Rattle.pb_keep.specs.Kept.{head, head_of, origin_of, reported_count, HasChanges, IsLogOf, Origin};

use crate::anew::count_changes;
use crate::fault::KeepFault;
use crate::first::has_snapshot;
use crate::head::head_of;
use pb_log::{Log, files_have_one_reading};
use sqlite_disk::Disk;
use std::alloc::Global;

// Takes the record of the snapshot away, if the records begin with one.
fn drop_snapshot(records: &mut Vec<Vec<u8>>)
    ensures parts { AreScripts (map (λ v. v.items) records.old.items)
        (map (λ v. v.items) records.new.items) }
{
    if !has_snapshot(records) {
        return;
    }
    records.remove(0);
}

/// Opens the log of this limit and this manifest, or makes it, and returns how many changes it has since its snapshot, as `Keeper::open` does.
/// None of them is made. The manifest has less than 2^30 bytes.
pub fn count_log<D: Disk + Drop>(
    alloc: Global,
    log: &mut Log<D>,
    limit: u64,
    manifest: &[u8],
) -> Result<u64, KeepFault>
    requires usable { IsTrue (D.is_usable log.old.disk) }
    requires restarted { Only (D.seen log.old.disk) (D.may_leave log.old.disk) }
    requires short { length manifest.now < 2 ^ 30 }
    ensures count { IfOk result (λ n. IsTrue (D.is_clean log.new.disk)
        → HasCount limit manifest.now (D.seen log.old.disk) n) }
    // The log is at rest then, with its records. One that has its header is read alone.
    ensures at_rest { (records : List (List ℕ))
        → HasRecords (head limit manifest.now) records (D.seen log.old.disk)
        → OnOk result (IsTrue (D.is_clean log.new.disk)
        → IsAtRest (D.seen log.new.disk) (D.may_leave log.new.disk) log.new.end
        (header (head limit manifest.now) ∷ records)) }
    ensures read_alone { OnOk result (IsTrue (D.is_clean log.new.disk)
        → (first : List ℕ) (others : List (List ℕ))
        → IsLog (D.seen log.old.disk) (first ∷ others)
        → D.seen log.new.disk ≡ D.seen log.old.disk) }
    // So it is the log of its changes, and these are counted.
    ensures opened { (origin : Origin) (changes : List Writes)
        → head_of origin ≡ head limit manifest.now
        → HasChanges origin changes (D.seen log.old.disk)
        → IfOk result (λ n. IsTrue (D.is_clean log.new.disk)
        → IsLogOf origin changes (D.seen log.new.disk) (D.may_leave log.new.disk) log.new.end
        × (n ≡ reported_count (length changes))) }
    ensures usable { OnOk result (IsTrue (D.is_usable log.new.disk)) }
    ensures clean { IsTrue (D.is_clean log.new.disk) → IsTrue (D.is_clean log.old.disk) }
    // A fault has its cause in the file or the disk.
    ensures cause { IfErr result (λ e. IsTrue (D.is_clean log.new.disk)
        → WhyNotCounted limit manifest.now (D.faults log.old.disk) (D.faults log.new.disk)
        (D.seen log.old.disk) e) }
    // Where the log can't be opened for what it has, it is as it was.
    ensures same { IfErr result (λ e. IsOfLogFile e
        → D.seen log.new.disk ≡ D.seen log.old.disk) }
    // On every path a crash leaves the records that the log has, or the first if it had none.
    ensures records { IsTrue (D.is_clean log.new.disk)
        → (rs : List (List ℕ)) → IsLog (D.seen log.old.disk) rs
        → (c : List ℕ) → D.may_leave log.new.disk c
        → IsLog c rs ⊎ ((rs ≡ []) × IsLog c (header (head limit manifest.now) ∷ [])) }
    // So it leaves the changes that the log has.
    ensures crash { IsTrue (D.is_clean log.new.disk)
        → (snapshot : Option SnapshotOf) (changes : List Writes)
        → HasChanges (origin_of limit manifest.now snapshot) changes (D.seen log.old.disk)
        → (c : List ℕ) → D.may_leave log.new.disk c
        → HasChanges (origin_of limit manifest.now snapshot) changes c }
    // Where each byte of a torn write is old or new, what may be opened may be opened then.
    ensures shut { ((d : _) → IsTrue (D.is_mixing d)) → IsTrue (D.is_clean log.new.disk)
        → (rs : List (List ℕ)) → IsReadable (D.seen log.old.disk) rs
        → (c : List ℕ) → D.may_leave log.new.disk c → IsShutOrNew c }
{
    // For the proof: a file has one list of records.
    files_have_one_reading();
    let head = head_of(alloc, limit, manifest)?;
    let mut records = log.open(alloc, &head)?;
    drop_snapshot(&mut records);
    count_changes(alloc, &records)
}

/// Copies a log that is open into another file, which has to be empty, and opens the copy as `count_log` does. What stands there at `Ok` is a log
/// of the same limit, manifest and snapshot, with the same changes, and all of it is on the disk; how many changes these are is returned.
/// The limit and the manifest are those of the log; the manifest has less than 2^30 bytes. This log goes on as it was in any case.
pub fn copy_log<D: Disk + Drop, E: Disk + Drop>(
    alloc: Global,
    log: &mut Log<D>,
    copy: &mut Log<E>,
    limit: u64,
    manifest: &[u8],
) -> Result<u64, KeepFault>
    requires usable { IsTrue (D.is_usable log.old.disk) }
    requires usable_copy { IsTrue (E.is_usable copy.old.disk) }
    requires restarted { Only (E.seen copy.old.disk) (E.may_leave copy.old.disk) }
    requires short { length manifest.now < 2 ^ 30 }
    ensures copied { (origin : Origin) (changes : List Writes)
        → IsLogOf origin changes (D.seen log.old.disk) (D.may_leave log.old.disk) log.old.end
        → IfOk result (λ n. IsTrue (D.is_clean log.new.disk) → IsTrue (E.is_clean copy.new.disk)
        → IsLogOf origin changes (E.seen copy.new.disk) (E.may_leave copy.new.disk)
        copy.new.end × (n ≡ reported_count (length changes))) }
    // The copy ends as puts leave it, so that it may be opened again.
    ensures readable { (origin : Origin) (changes : List Writes)
        → (own : IsLogOf origin changes (D.seen log.old.disk) (D.may_leave log.old.disk)
        log.old.end) → OnOk result (IsTrue (D.is_clean log.new.disk)
        → IsTrue (E.is_clean copy.new.disk)
        → IsReadable (E.seen copy.new.disk) (records_of origin own.scripts)) }
    // On every path a crash leaves no record in the copy, or the log with all of its changes.
    ensures crash { (origin : Origin) (changes : List Writes)
        → IsLogOf origin changes (D.seen log.old.disk) (D.may_leave log.old.disk) log.old.end
        → IsTrue (D.is_clean log.new.disk) → IsTrue (E.is_clean copy.new.disk)
        → E.seen copy.old.disk ≡ []
        → (c : List ℕ) → E.may_leave copy.new.disk c
        → IsLog c [] ⊎ HasChanges origin changes c }
    // A file that has bytes is none for a copy, and is left as it is.
    ensures empty { OnOk result (IsTrue (E.is_clean copy.new.disk)
        → E.seen copy.old.disk ≡ []) }
    ensures kept_copy { IsTrue (E.is_clean copy.new.disk) → E.seen copy.old.disk ≢ []
        → E.seen copy.new.disk ≡ E.seen copy.old.disk }
    ensures same { (origin : Origin) (changes : List Writes)
        → IsLogOf origin changes (D.seen log.old.disk) (D.may_leave log.old.disk) log.old.end
        → IsLogOf origin changes (D.seen log.new.disk) (D.may_leave log.new.disk) log.new.end }
    ensures seen { D.seen log.new.disk ≡ D.seen log.old.disk }
    ensures end { log.new.end ≡ log.old.end }
    ensures kept { (c : List ℕ) → D.may_leave log.new.disk c → D.may_leave log.old.disk c }
    ensures usable { IsTrue (D.is_usable log.new.disk) }
    ensures usable_copy { OnOk result (IsTrue (E.is_usable copy.new.disk)) }
    // A fault has its cause.
    ensures cause { (origin : Origin) (changes : List Writes)
        → IsLogOf origin changes (D.seen log.old.disk) (D.may_leave log.old.disk) log.old.end
        → IfErr result (λ e. IsTrue (D.is_clean log.new.disk) → IsTrue (E.is_clean copy.new.disk)
        → WhyNoCopy origin limit manifest.now (D.faults log.old.disk) (D.faults log.new.disk)
        (E.faults copy.old.disk) (E.faults copy.new.disk) log.old.end
        (E.seen copy.old.disk) e) }
{
    // For the proof: a file has one list of records.
    files_have_one_reading();
    log.copy_into(alloc, copy)?;
    count_log(alloc, copy, limit, manifest)
}
