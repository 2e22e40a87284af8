//! The limit of entries and the manifest that a log has.
ghost use Rattle.std.specs.Prelude.{◌≡◌, ◌<◌, ◌^◌, length, string_bytes, IfErr, IfOk, IfSome, IsTrue, OnOk, Some};
ghost use Rattle.sqlite_disk.specs.Disk.{Only};
ghost use Rattle.percobpf_keep.specs.Failures.{IsOfFile};
ghost use Rattle.percobpf_keep.specs.Limits.{entries_of_log, wanted_or, HasHead, IsLimitOf, IsNoOtherWanted};
ghost use Rattle.percobpf_keep.specs.declared.failure.FileState.TheVariants.{OtherLimit};

use crate::failure::{Failure, FileState};
use crate::names::{Location, open_at};
use crate::table::{new_log, short_text};
use pb_keep::split_head;
use pb_log::Log;
use sqlite_disk::Disk;
use std::alloc::Global;

// How many entries the table of a new log may have. These take some 4 GB.
const DEFAULT_LIMIT: u64 = 10_000_000;

/// What stands in the first record of a log.
#[derive(Drop)]
pub(crate) struct Head {
    /// How many entries its table may have.
    pub limit: u64,
    /// Its manifest.
    pub manifest: String,
}

/// What the first record of the log has, if there is one.
pub(crate) fn read_head<D: Disk + Drop>(
    alloc: Global,
    log: &mut Log<D>,
    location: &Location,
) -> Result<Option<Head>, Failure>
    requires usable { IsTrue (D.is_usable log.old.disk) }
    ensures usable { IsTrue (D.is_usable log.new.disk) }
    ensures restarted { Only (D.seen log.old.disk) (D.may_leave log.old.disk)
        → Only (D.seen log.new.disk) (D.may_leave log.new.disk) }
    ensures short { IfOk result (λ o. IfSome o (λ h. length (string_bytes h.manifest) < 2 ^ 30)) }
    ensures head { IfOk result (λ own. IsTrue (D.is_clean log.new.disk)
        → HasHead own (D.seen log.old.disk)) }
    ensures seen { D.seen log.new.disk ≡ D.seen log.old.disk }
    ensures clean { IsTrue (D.is_clean log.new.disk) → IsTrue (D.is_clean log.old.disk) }
{
    let Some(bytes) = log.read_manifest(alloc)? else {
        return Ok(None);
    };
    let Ok(text) = String::from_utf8(bytes) else {
        return Err(Failure::of_file(alloc, location.log.as_str(), FileState::OwnManifestNotText));
    };
    let (limit, manifest) = split_head(text.as_str());
    let manifest = short_text(String::from_str(alloc, manifest)?)?;
    Ok(Some(Head { limit, manifest }))
}

/// The same, where a log has to have been begun: another file is reported, and left as it is.
pub(crate) fn head_there<D: Disk + Drop>(
    alloc: Global,
    log: &mut Log<D>,
    location: &Location,
) -> Result<Head, Failure>
    requires usable { IsTrue (D.is_usable log.old.disk) }
    ensures usable { IsTrue (D.is_usable log.new.disk) }
    ensures restarted { Only (D.seen log.old.disk) (D.may_leave log.old.disk)
        → Only (D.seen log.new.disk) (D.may_leave log.new.disk) }
    ensures short { IfOk result (λ h. length (string_bytes h.manifest) < 2 ^ 30) }
    ensures head { IfOk result (λ own. IsTrue (D.is_clean log.new.disk)
        → HasHead (Some own) (D.seen log.old.disk)) }
    ensures seen { D.seen log.new.disk ≡ D.seen log.old.disk }
    ensures clean { IsTrue (D.is_clean log.new.disk) → IsTrue (D.is_clean log.old.disk) }
{
    match read_head(alloc, log, location)? {
        Some(head) => Ok(head),
        None => Err(Failure::of_file(alloc, location.log.as_str(), FileState::NotBegun)),
    }
}

/// Prints the manifest that a log has, byte by byte.
pub(crate) fn print_manifest(rt: &HostRuntime, path: &str) -> Result<(), Failure> {
    let (location, db) = open_at(rt, path)?;
    let mut log = new_log(db);
    let head = head_there(rt.alloc(), &mut log, &location)?;
    print!(rt; "{}", head.manifest)?;
    Ok(())
}

/// The limit of a log that goes on as it is: its own, and of a new one the one that is wanted, if any is. Another one is wanted
/// of `--compact` alone.
pub(crate) fn limit_of(
    alloc: Global,
    own: &Option<Head>,
    wanted: Option<u64>,
    location: &Location,
) -> Result<u64, Failure>
    ensures limit { IfOk result (λ n. n ≡ entries_of_log own.now wanted) }
    ensures same { OnOk result (IsNoOtherWanted own.now wanted) }
    ensures other { IfErr result (λ e. IsOfFile (string_bytes location.now.log) OtherLimit e
        × (IsNoOtherWanted own.now wanted → ⊥)) }
{
    let Some(head) = own else {
        return Ok(wanted.unwrap_or(DEFAULT_LIMIT));
    };
    match wanted {
        Some(limit) if limit != head.limit => Err(Failure::of_file(
            alloc,
            location.log.as_str(),
            FileState::OtherLimit,
        )),
        _ => Ok(head.limit),
    }
}

/// The limit that the log has or, where it is new, gets.
pub(crate) fn limit_in<D: Disk + Drop>(
    alloc: Global,
    log: &mut Log<D>,
    location: &Location,
    wanted: Option<u64>,
) -> Result<u64, Failure>
    requires usable { IsTrue (D.is_usable log.old.disk) }
    ensures usable { IsTrue (D.is_usable log.new.disk) }
    ensures restarted { Only (D.seen log.old.disk) (D.may_leave log.old.disk)
        → Only (D.seen log.new.disk) (D.may_leave log.new.disk) }
    ensures limit { IfOk result (λ n. IsTrue (D.is_clean log.new.disk)
        → IsLimitOf wanted (D.seen log.old.disk) n) }
    ensures seen { D.seen log.new.disk ≡ D.seen log.old.disk }
{
    let own = read_head(alloc, log, location)?;
    limit_of(alloc, &own, wanted, location)
}

/// The limit of a log that is put in the place of another one: the one that is wanted, if any is, or that of the other.
pub(crate) fn next_limit(own: u64, wanted: Option<u64>) -> u64
    ensures { result ≡ wanted_or own wanted }
{
    wanted.unwrap_or(own)
}
