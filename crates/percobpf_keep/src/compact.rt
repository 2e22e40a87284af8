//! A log that begins with a snapshot, put in the place of one that has each change ever made.
ghost use Rattle.std.specs.Prelude.{◌≡◌, ◌<◌, ◌^◌, true, length, IfOk, Ok, OnErr, OnOk, IfErr, IsTrue};
ghost use Rattle.pb_keeper.specs.Stats.{kept_table};
ghost use Rattle.pb_keep.specs.Anew.{HasVersions};
ghost use Rattle.pb_keep.specs.Waits.{IsWaiting};
ghost use Rattle.pb_registry.specs.Judging.{ReadsManifest};
ghost use Rattle.pb_keep.specs.declared.replace.ReplaceFault.TheVariants as faults;
ghost use Rattle.percobpf_keep.specs.Failures.{IsOfReplacing};
ghost use Rattle.percobpf_keep.specs.Refused.{is_refused};

use crate::failure::Failure;
use crate::file::LogFile;
use crate::names::Location;
use crate::new_file::{LogFolder, make_new_file, remove_new};
use crate::table::{Kept, new_table};
use pb_decode::either_program_or_fault;
use pb_keep::{ReplaceFault, SnapshotFault, replace_log};
use sqlite_disk::{Disk, Unknown};
use sqlite_std_file::FileFrom;

// Whether the table is as it should be, and can be served, but not compacted.
fn is_refused(fault: &SnapshotFault) -> bool
    ensures { result ≡ is_refused fault.now }
{
    matches!(
        fault,
        SnapshotFault::LinesWait | SnapshotFault::NoTimestamp | SnapshotFault::TooLarge
    )
}

// Why such a table can't be compacted, or else the fault.
fn refused(fault: ReplaceFault<Failure>) -> Result<SnapshotFault, Failure>
    ensures refused { IfOk result (λ why. is_refused why ≡ true) }
    ensures same { IfOk result (λ why. fault ≡ faults.Snapshot why) }
    ensures failure { IfErr result (IsOfReplacing fault) }
{
    match fault {
        ReplaceFault::Snapshot(why) if is_refused(&why) => Ok(why),
        ReplaceFault::Snapshot(fault) => Err(fault.into()),
        ReplaceFault::New(fault) => Err(fault.into()),
        ReplaceFault::NotNew => Err(Failure::HasChanges),
        ReplaceFault::Folder(fault) => Err(fault),
    }
}

// Replaces the log, and returns the file of the new one, and how many versions its snapshot has. The manifest is the one of the table's
// observers, before and after.
fn replace(
    rt: &HostRuntime,
    keeper: &mut Kept,
    limit: u64,
    manifest: &str,
    location: &Location,
) -> Result<Result<(LogFile, usize), SnapshotFault>, Failure>
    requires short { length manifest.now < 2 ^ 30 }
    requires usable { IsTrue (⟦<FileFrom<Unknown> as Disk>⟧.is_usable keeper.old.log.disk) }
    requires waiting { IsWaiting keeper.old.waiting }
    requires manifest { ReadsManifest manifest.now (Ok keeper.old.state.observers) }
    ensures usable { IsTrue (⟦<FileFrom<Unknown> as Disk>⟧.is_usable keeper.new.log.disk) }
    ensures waiting { IsWaiting keeper.new.waiting }
    ensures manifest { IfOk result (λ done. OnOk done
        (ReadsManifest manifest.now (Ok keeper.new.state.observers))) }
    ensures observers { IfOk result (λ done. OnOk done
        (keeper.new.state.observers ≡ keeper.old.state.observers)) }
    ensures versions { IfOk result (λ done. IfOk done (λ made.
        HasVersions (kept_table keeper.old.state keeper.old.stats.items) made.1)) }
    ensures limit { IfOk result (λ done. OnOk done (keeper.new.limit ≡ limit)) }
    ensures refused { IfOk result (λ done. IfErr done (λ why.
        (is_refused why ≡ true) × (keeper.new ≡ keeper.old))) }
{
    // For the proof: a manifest has one list of observers.
    either_program_or_fault();
    let new = make_new_file(rt, location.log.as_str())?;
    let mut folder = LogFolder::new(rt, location, &new)?;
    let (state, stats) = new_table(rt.alloc(), manifest)?;
    let bytes = manifest.as_bytes();
    match replace_log(rt.alloc(), keeper, &mut folder, state, stats, limit, bytes) {
        Ok(versions) => Ok(Ok((new.file, versions))),
        Err(fault) => Ok(Err(refused(fault)?)),
    }
}

/// Puts a log that begins with a snapshot of the table in the place of its log, and goes on with the table that the new log has.
/// The new log has this limit of entries and this manifest, which is the one of the table's observers, before and after.
/// Returns how many versions the snapshot has, or why such a table can't be compacted: then all is as it was.
pub(crate) fn compact(
    rt: &HostRuntime,
    keeper: &mut Kept,
    limit: u64,
    manifest: &str,
    location: &mut Location,
) -> Result<Result<usize, SnapshotFault>, Failure>
    requires short { length manifest.now < 2 ^ 30 }
    requires usable { IsTrue (⟦<FileFrom<Unknown> as Disk>⟧.is_usable keeper.old.log.disk) }
    requires waiting { IsWaiting keeper.old.waiting }
    requires manifest { ReadsManifest manifest.now (Ok keeper.old.state.observers) }
    ensures usable { OnOk result
        (IsTrue (⟦<FileFrom<Unknown> as Disk>⟧.is_usable keeper.new.log.disk)) }
    ensures waiting { OnOk result (IsWaiting keeper.new.waiting) }
    ensures manifest { OnOk result
        (ReadsManifest manifest.now (Ok keeper.new.state.observers)) }
    // So the table has the same observers.
    ensures observers { OnOk result
        (keeper.new.state.observers ≡ keeper.old.state.observers) }
    ensures versions { IfOk result (λ done. IfOk done
        (HasVersions (kept_table keeper.old.state keeper.old.stats.items))) }
    ensures limit { IfOk result (λ done. OnOk done (keeper.new.limit ≡ limit)) }
    ensures refused { IfOk result (λ done. IfErr done (λ why.
        (is_refused why ≡ true) × (keeper.new ≡ keeper.old))) }
    ensures place { IfOk result (λ done. OnErr done (location.new ≡ location.old)) }
    ensures names { (location.new.log ≡ location.old.log)
        × (location.new.folder ≡ location.old.folder)
        × (location.new.copies ≡ location.old.copies) }
{
    let why = match replace(rt, keeper, limit, manifest, location) {
        Ok(Ok((file, versions))) => {
            location.file = file;
            return Ok(Ok(versions));
        }
        Ok(Err(why)) => Ok(why),
        Err(fault) => Err(fault),
    };
    let removed = remove_new(rt, location.log.as_str());
    // Of two faults the first one is reported.
    let why = why?;
    removed?;
    Ok(Err(why))
}
