//! Where a log is, and which names no table has.
ghost use Rattle.std.specs.Prelude.{◌↔◌, false, IfOk, IsTrue, OnOk, string_bytes};
ghost use Rattle.sqlite_std_file.specs.File.{IsFresh};
ghost use Rattle.percobpf_keep.specs.Names.{IsReserved};

use crate::failure::{Failure, FileState};
use crate::file::{LogFile, named, open_locked, open_there};
use sqlite_disk::{Disk, Unknown};
use sqlite_std_file::FileFrom;
use std::alloc::Global;
use std::fs;

/// Where a log is.
#[derive(Drop)]
pub(crate) struct Location {
    /// Its name, with no link in it.
    pub log: String,
    /// Its folder.
    pub folder: String,
    /// Its file.
    pub file: LogFile,
    /// The folder of its copies, if lines may ask for some.
    pub copies: Option<String>,
}

// Whether such a name is left to new logs, and to what stands beside these.
fn is_reserved(path: &str) -> bool
    ensures { IsTrue result ↔ IsReserved path.now }
{
    path.as_bytes().ends_with(b"~new") || path.as_bytes().ends_with(b"~new-wal")
}

/// Reports a name that no table has.
pub(crate) fn refuse_reserved(alloc: Global, path: &str) -> Result<(), Failure>
    ensures { OnOk result (IsReserved path.now → ⊥) }
{
    if is_reserved(path) {
        return Err(Failure::of_file(alloc, path, FileState::Reserved));
    }
    Ok(())
}

/// Where the log of this path is, which is there, and its file, locked.
pub(crate) fn open_at(
    rt: &HostRuntime,
    path: &str,
) -> Result<(Location, FileFrom<Unknown>), Failure>
    ensures usable { IfOk result (λ at.
        IsTrue (⟦<FileFrom<Unknown> as Disk>⟧.is_usable at.1)) }
    ensures fresh { IfOk result (λ at. IsFresh false at.1) }
    ensures free { IfOk result (λ at. IsReserved (string_bytes at.0.log) → ⊥) }
{
    let alloc = rt.alloc();
    let mut real = named(alloc, path, fs::canonicalize(rt, path))?;
    let log = String::from_str(alloc, real.as_str())?;
    refuse_reserved(alloc, log.as_str())?;
    real.pop();
    let folder = String::from_str(alloc, real.as_str())?;
    let file = named(alloc, log.as_str(), open_there(rt, log.as_str()))?;
    let db = open_locked(rt, &file, log.as_str())?;
    let copies = None;
    Ok((
        Location {
            log,
            folder,
            file,
            copies,
        },
        db,
    ))
}
