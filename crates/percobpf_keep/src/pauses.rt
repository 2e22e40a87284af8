//! What lines pause for: a compaction or a copy of the log that is served.
ghost use Rattle.std.specs.Prelude.{◌≡◌, ◌≤◌, ◌<◌, ◌^◌, ℕ, Bool, List, false, true, length, string_bytes, IfOk, MatchResult, Ok, OnOk, IsTrue};
ghost use Rattle.std.specs.Io.KnownBytes.{Appends};
ghost use Rattle.pb_keeper.specs.Stats.{kept_table};
ghost use Rattle.pb_keep.specs.Anew.{HasVersions};
ghost use Rattle.pb_keep.specs.Waits.{IsWaiting};
ghost use Rattle.pb_registry.specs.Judging.{ReadsManifest};
ghost use Rattle.percobpf_keep.specs.Copied.{HasCopy, IsCopyOf};
ghost use Rattle.percobpf_keep.specs.Limits.{limit_after, next_bytes};
ghost use Rattle.percobpf_keep.specs.Printed.{compact_answer, next_limit_at, IsCompactAnswer, IsCopyAnswer, IsPauseAnswered};

use crate::compact::compact;
use crate::copy::{Copied, close_copy, copy_name, copy_to};
use crate::failure::Failure;
use crate::names::Location;
use crate::printed::{Printed, write_line};
use crate::table::Kept;
use crate::watched::WatchedOut;
use pb_base::Sink;
use pb_keep::{Paused, SnapshotFault};
use sqlite_disk::{Disk, Unknown};
use sqlite_std_file::FileFrom;
use std::alloc::Global;
use std::io::Write;

// The answer to a line that asks for a compaction of a table that can't be compacted, or for a copy that can't be made.
const REFUSED: &str = "refused 78\n";

// The answer to a line that asks for a copy where there is no folder for copies.
const OUT_OF_PLACE: &str = "refused 76\n";

// How many bytes a log has from which on it is compacted: these at least, and twice as many as after the last compaction.
fn next_limit(least: u64, end: usize) -> u64
    ensures { result ≡ next_bytes least end }
{
    least.max((end as u64).saturating_mul(2))
}

// The same after lines have paused: it changes where the log was compacted, and where it is large and can't be.
fn limit_after(is_done: bool, least: u64, end: usize, limit: u64) -> u64
    ensures { result ≡ limit_after is_done least end limit }
{
    if is_done {
        next_limit(least, end)
    } else {
        limit
    }
}

// From how many bytes on the log is compacted after lines have paused for this, or none where the input has ended.
fn next_limit_at(paused: Paused, is_done: bool, least: u64, end: usize, limit: u64) -> Option<u64>
    ensures { result ≡ next_limit_at paused is_done least end limit }
{
    match paused {
        Paused::Ended => None,
        _ => Some(limit_after(is_done, least, end, limit)),
    }
}

// Writes the answer to a line that asked for a compaction. Returns whether one was made.
fn write_compacted<S: Sink>(
    alloc: Global,
    out: &mut S,
    done: Result<usize, SnapshotFault>,
) -> Result<bool, Failure>
    ensures answer { OnOk result
        (Appends (S.taken out.old) (S.taken out.new) (compact_answer done)) }
    ensures done { IfOk result (λ is_done.
        MatchResult done (λ _. is_done ≡ true) (λ _. is_done ≡ false)) }
{
    match done {
        Ok(versions) => {
            write_line(alloc, out, Printed::Compacted(versions))?;
            Ok(true)
        }
        Err(_) => {
            out.write_all(REFUSED.as_bytes())?;
            Ok(false)
        }
    }
}

// Compacts the log, which the output follows. Returns how many versions the snapshot of the new one has, or why there is none.
fn compact_and_follow<'a, W: Write + Drop>(
    rt: &HostRuntime,
    keeper: &mut Kept,
    manifest: &str,
    location: &mut Location,
    out: &mut WatchedOut<'a, W>,
) -> Result<Result<usize, SnapshotFault>, Failure>
    requires short { length manifest.now < 2 ^ 30 }
    requires usable { IsTrue (⟦<FileFrom<Unknown> as Disk>⟧.is_usable keeper.old.log.disk) }
    requires waiting { IsWaiting keeper.old.waiting }
    requires manifest { ReadsManifest manifest.now (Ok keeper.old.state.observers) }
    ensures usable { OnOk result
        (IsTrue (⟦<FileFrom<Unknown> as Disk>⟧.is_usable keeper.new.log.disk)) }
    ensures waiting { OnOk result (IsWaiting keeper.new.waiting) }
    ensures manifest { OnOk result
        (ReadsManifest manifest.now (Ok keeper.new.state.observers)) }
    ensures versions { IfOk result (λ done. IfOk done
        (HasVersions (kept_table keeper.old.state keeper.old.stats.items))) }
    ensures unwritten { ⟦<WatchedOut<'a, W> as Sink>⟧.taken out.new
        ≡ ⟦<WatchedOut<'a, W> as Sink>⟧.taken out.old }
{
    let limit = keeper.limit;
    let done = compact(rt, keeper, limit, manifest, location)?;
    out.follow(location);
    Ok(done)
}

// Compacts the log, and writes the answer. Returns whether it is compacted.
fn answer_compact<'a, W: Write + Drop>(
    rt: &HostRuntime,
    keeper: &mut Kept,
    manifest: &str,
    location: &mut Location,
    out: &mut WatchedOut<'a, W>,
) -> Result<bool, Failure>
    requires short { length manifest.now < 2 ^ 30 }
    requires usable { IsTrue (⟦<FileFrom<Unknown> as Disk>⟧.is_usable keeper.old.log.disk) }
    requires waiting { IsWaiting keeper.old.waiting }
    requires manifest { ReadsManifest manifest.now (Ok keeper.old.state.observers) }
    ensures usable { OnOk result
        (IsTrue (⟦<FileFrom<Unknown> as Disk>⟧.is_usable keeper.new.log.disk)) }
    ensures waiting { OnOk result (IsWaiting keeper.new.waiting) }
    ensures manifest { OnOk result
        (ReadsManifest manifest.now (Ok keeper.new.state.observers)) }
    ensures answer { IfOk result (λ is_done. (text : List ℕ) × IsCompactAnswer
        (kept_table keeper.old.state keeper.old.stats.items) is_done text
        × Appends (⟦<WatchedOut<'a, W> as Sink>⟧.taken out.old)
        (⟦<WatchedOut<'a, W> as Sink>⟧.taken out.new) text) }
{
    let done = compact_and_follow(rt, keeper, manifest, location, out)?;
    write_compacted(rt.alloc(), out, done)
}

// Compacts a large log, or prints why its table can't be compacted. Returns whether it is compacted.
fn compact_large(
    rt: &HostRuntime,
    keeper: &mut Kept,
    manifest: &str,
    location: &mut Location,
) -> Result<bool, Failure>
    requires short { length manifest.now < 2 ^ 30 }
    requires usable { IsTrue (⟦<FileFrom<Unknown> as Disk>⟧.is_usable keeper.old.log.disk) }
    requires waiting { IsWaiting keeper.old.waiting }
    requires manifest { ReadsManifest manifest.now (Ok keeper.old.state.observers) }
    ensures usable { OnOk result
        (IsTrue (⟦<FileFrom<Unknown> as Disk>⟧.is_usable keeper.new.log.disk)) }
    ensures waiting { OnOk result (IsWaiting keeper.new.waiting) }
    ensures manifest { OnOk result
        (ReadsManifest manifest.now (Ok keeper.new.state.observers)) }
    ensures refused { IfOk result (λ is_done. is_done ≡ false → keeper.new ≡ keeper.old) }
{
    let limit = keeper.limit;
    match compact(rt, keeper, limit, manifest, location)? {
        Ok(_) => Ok(true),
        Err(why) => {
            let _ = eprintln!(rt; "{}: not compacted: {why}", location.log);
            Ok(false)
        }
    }
}

// Copies the log to this folder, under this number. Returns the copy, which is still open.
fn copy_numbered(
    rt: &HostRuntime,
    keeper: &mut Kept,
    manifest: &str,
    location: &Location,
    folder: &str,
    number: u64,
) -> Result<Copied, Failure>
    requires short { length manifest.now < 2 ^ 30 }
    requires usable { IsTrue (⟦<FileFrom<Unknown> as Disk>⟧.is_usable keeper.old.log.disk) }
    ensures usable { IsTrue (⟦<FileFrom<Unknown> as Disk>⟧.is_usable keeper.new.log.disk) }
    ensures waiting { keeper.new.waiting ≡ keeper.old.waiting }
    ensures state { keeper.new.state ≡ keeper.old.state }
    ensures copied { IfOk result (λ made. IsCopyOf (⟦<FileFrom<Unknown> as Disk>⟧.seen)
        (⟦<FileFrom<Unknown> as Disk>⟧.may_leave) (⟦<FileFrom<Unknown> as Disk>⟧.is_clean)
        keeper.old.log keeper.new.log made.log (string_bytes made.line)) }
{
    let path = copy_name(rt.alloc(), folder, number)?;
    let limit = keeper.limit;
    copy_to(
        rt,
        &mut keeper.log,
        limit,
        manifest,
        &location.file,
        path.as_str(),
    )
}

// Copies the log, and writes the answer. Why no copy is made is printed, and the log is served as it is. No memory is wanted for that answer.
fn answer_copy<S: Sink>(
    rt: &HostRuntime,
    keeper: &mut Kept,
    manifest: &str,
    location: &Location,
    number: u64,
    out: &mut S,
) -> Result<(), Failure>
    requires short { length manifest.now < 2 ^ 30 }
    requires usable { IsTrue (⟦<FileFrom<Unknown> as Disk>⟧.is_usable keeper.old.log.disk) }
    ensures usable { IsTrue (⟦<FileFrom<Unknown> as Disk>⟧.is_usable keeper.new.log.disk) }
    ensures waiting { keeper.new.waiting ≡ keeper.old.waiting }
    ensures state { keeper.new.state ≡ keeper.old.state }
    ensures answer { OnOk result ((text : List ℕ)
        × IsCopyAnswer (HasCopy (⟦<FileFrom<Unknown> as Disk>⟧.seen)
        (⟦<FileFrom<Unknown> as Disk>⟧.may_leave) (⟦<FileFrom<Unknown> as Disk>⟧.is_clean)
        keeper.old.log keeper.new.log) location.now.copies text
        × Appends (S.taken out.old) (S.taken out.new) text) }
{
    let Some(folder) = &location.copies else {
        out.write_all(OUT_OF_PLACE.as_bytes())?;
        return Ok(());
    };
    match copy_numbered(rt, keeper, manifest, location, folder.as_str(), number) {
        Ok(copied) => {
            let line = close_copy(copied);
            out.write_all(line.as_bytes())?;
            Ok(())
        }
        Err(why) => {
            let _ = eprintln!(rt; "{}: not copied: {why}", location.log);
            out.write_all(REFUSED.as_bytes())?;
            Ok(())
        }
    }
}

// Does what lines pause for. Returns whether the log was compacted, or is large and can't be.
fn answer_pause<'a, W: Write + Drop>(
    rt: &HostRuntime,
    keeper: &mut Kept,
    manifest: &str,
    location: &mut Location,
    out: &mut WatchedOut<'a, W>,
    paused: Paused,
) -> Result<bool, Failure>
    requires short { length manifest.now < 2 ^ 30 }
    requires usable { IsTrue (⟦<FileFrom<Unknown> as Disk>⟧.is_usable keeper.old.log.disk) }
    requires waiting { IsWaiting keeper.old.waiting }
    requires manifest { ReadsManifest manifest.now (Ok keeper.old.state.observers) }
    ensures usable { OnOk result
        (IsTrue (⟦<FileFrom<Unknown> as Disk>⟧.is_usable keeper.new.log.disk)) }
    ensures waiting { OnOk result (IsWaiting keeper.new.waiting) }
    ensures manifest { OnOk result
        (ReadsManifest manifest.now (Ok keeper.new.state.observers)) }
    ensures answered { IfOk result (λ is_done. IsPauseAnswered
        (kept_table keeper.old.state keeper.old.stats.items)
        (HasCopy (⟦<FileFrom<Unknown> as Disk>⟧.seen) (⟦<FileFrom<Unknown> as Disk>⟧.may_leave)
        (⟦<FileFrom<Unknown> as Disk>⟧.is_clean) keeper.old.log keeper.new.log)
        location.old.copies paused is_done (⟦<WatchedOut<'a, W> as Sink>⟧.taken out.old)
        (⟦<WatchedOut<'a, W> as Sink>⟧.taken out.new)) }
{
    match paused {
        Paused::Ended => Ok(false),
        Paused::Asked => answer_compact(rt, keeper, manifest, location, out),
        Paused::Copy(number) => {
            answer_copy(rt, keeper, manifest, location, number, out)?;
            Ok(false)
        }
        Paused::Large => {
            compact_large(rt, keeper, manifest, location)?;
            out.follow(location);
            Ok(true)
        }
    }
}

/// The same. Returns from how many bytes on the log is compacted next, or none where the input has ended.
pub(crate) fn handle_pause<'a, W: Write + Drop>(
    rt: &HostRuntime,
    keeper: &mut Kept,
    manifest: &str,
    location: &mut Location,
    out: &mut WatchedOut<'a, W>,
    paused: Paused,
    least: u64,
    limit: u64,
) -> Result<Option<u64>, Failure>
    requires short { length manifest.now < 2 ^ 30 }
    requires usable { IsTrue (⟦<FileFrom<Unknown> as Disk>⟧.is_usable keeper.old.log.disk) }
    requires waiting { IsWaiting keeper.old.waiting }
    requires manifest { ReadsManifest manifest.now (Ok keeper.old.state.observers) }
    ensures usable { OnOk result
        (IsTrue (⟦<FileFrom<Unknown> as Disk>⟧.is_usable keeper.new.log.disk)) }
    ensures waiting { OnOk result (IsWaiting keeper.new.waiting) }
    ensures manifest { OnOk result
        (ReadsManifest manifest.now (Ok keeper.new.state.observers)) }
    ensures answered { IfOk result (λ next. (is_done : Bool) × IsPauseAnswered
        (kept_table keeper.old.state keeper.old.stats.items)
        (HasCopy (⟦<FileFrom<Unknown> as Disk>⟧.seen) (⟦<FileFrom<Unknown> as Disk>⟧.may_leave)
        (⟦<FileFrom<Unknown> as Disk>⟧.is_clean) keeper.old.log keeper.new.log)
        location.old.copies paused is_done (⟦<WatchedOut<'a, W> as Sink>⟧.taken out.old)
        (⟦<WatchedOut<'a, W> as Sink>⟧.taken out.new)
        × (next ≡ next_limit_at paused is_done least keeper.new.log.end limit)) }
{
    let is_done = answer_pause(rt, keeper, manifest, location, out, paused)?;
    Ok(next_limit_at(paused, is_done, least, keeper.log.end, limit))
}

/// Compacts the log where it has so many bytes, if its table can be compacted. Returns whether it is compacted, and from how many bytes on it is
/// compacted next.
pub(crate) fn compact_if_large(
    rt: &HostRuntime,
    keeper: &mut Kept,
    manifest: &str,
    location: &mut Location,
    least: u64,
) -> Result<(bool, u64), Failure>
    requires short { length manifest.now < 2 ^ 30 }
    requires usable { IsTrue (⟦<FileFrom<Unknown> as Disk>⟧.is_usable keeper.old.log.disk) }
    requires waiting { IsWaiting keeper.old.waiting }
    requires manifest { ReadsManifest manifest.now (Ok keeper.old.state.observers) }
    ensures usable { OnOk result
        (IsTrue (⟦<FileFrom<Unknown> as Disk>⟧.is_usable keeper.new.log.disk)) }
    ensures waiting { OnOk result (IsWaiting keeper.new.waiting) }
    ensures manifest { OnOk result
        (ReadsManifest manifest.now (Ok keeper.new.state.observers)) }
    ensures same { IfOk result (λ done. done.0 ≡ false → keeper.new ≡ keeper.old) }
    ensures small { keeper.old.log.end < least
        → IfOk result (λ done. (done.0 ≡ false) × (done.1 ≡ least)) }
    ensures large { least ≤ keeper.old.log.end
        → IfOk result (λ done. done.1 ≡ next_bytes least keeper.new.log.end) }
{
    if (keeper.log.end as u64) < least {
        return Ok((false, least));
    }
    let is_done = compact_large(rt, keeper, manifest, location)?;
    Ok((is_done, next_limit(least, keeper.log.end)))
}
