//! Copies of a log: of one that is served, where a line asks for it, and of one that isn't.
ghost use Rattle.std.specs.Prelude.{◌≡◌, ◌<◌, ◌^◌, length, string_bytes, IfOk, IsTrue};
ghost use Rattle.sqlite_disk.specs.Disk.{Only};
ghost use Rattle.percobpf_keep.specs.Copied.{log_view, IsCopied, IsCopyOf};
ghost use Rattle.percobpf_keep.specs.Printed.{copy_name, IsCopyLine};

use crate::failure::{Failure, FileState};
use crate::file::LogFile;
use crate::head::head_there;
use crate::names::{Location, open_at, refuse_reserved};
use crate::new_file::{NewFile, make_new_file};
use crate::printed::{Printed, line_text};
use crate::table::{KeptLog, new_log};
use pb_keep::{copy_log, count_log};
use pb_log::Log;
use sqlite_disk::{Disk, Unknown};
use sqlite_std_file::FileFrom;
use std::alloc::{AllocError, Global};
use std::{fs, io};

/// Reports a folder of copies that isn't there, or is none.
pub(crate) fn check_folder(rt: &HostRuntime, folder: &str) -> Result<(), Failure> {
    match fs::metadata(rt, folder) {
        Ok(found) if found.is_dir() => Ok(()),
        Ok(_) => Err(Failure::of_file(rt.alloc(), folder, FileState::NoFolder)),
        Err(fault) => Err(Failure::of_call(rt.alloc(), folder, fault)),
    }
}

/// The name of the copy of this number.
pub(crate) fn copy_name(alloc: Global, folder: &str, number: u64) -> Result<String, AllocError>
    ensures { IfOk result (λ path. string_bytes path ≡ copy_name folder.now number) }
{
    format!(in alloc; "{folder}/{number}.log")
}

// Reports what has the name of a copy.
fn refuse_taken(rt: &HostRuntime, path: &str) -> Result<(), Failure> {
    match fs::symlink_metadata(rt, path) {
        Ok(_) => Err(Failure::of_file(rt.alloc(), path, FileState::Taken)),
        Err(fault) if fault.kind() == io::ErrorKind::NotFound => Ok(()),
        Err(fault) => Err(Failure::of_call(rt.alloc(), path, fault)),
    }
}

// Copies a log that is open into another file, which has to be empty. Returns what is printed of the copy.
fn copy_line<D: Disk + Drop, E: Disk + Drop>(
    alloc: Global,
    log: &mut Log<D>,
    copy: &mut Log<E>,
    limit: u64,
    manifest: &str,
) -> Result<String, Failure>
    requires usable { IsTrue (D.is_usable log.old.disk) }
    requires usable_copy { IsTrue (E.is_usable copy.old.disk) }
    requires restarted { Only (E.seen copy.old.disk) (E.may_leave copy.old.disk) }
    requires short { length manifest.now < 2 ^ 30 }
    ensures usable { IsTrue (D.is_usable log.new.disk) }
    ensures line { IfOk result (λ line. IsCopyLine (string_bytes line)) }
    ensures copied { IfOk result (λ line. IsTrue (D.is_clean log.new.disk)
        → IsTrue (E.is_clean copy.new.disk)
        → IsCopied (log_view D.seen D.may_leave log.old)
        (log_view E.seen E.may_leave copy.new) (string_bytes line)) }
{
    let count = copy_log(alloc, log, copy, limit, manifest.as_bytes())?;
    let line = line_text(alloc, Printed::Copied(count))?;
    Ok(line)
}

/// A copy that is open, and what is printed of it: with how many changes it has since its snapshot.
#[derive(Drop)]
pub(crate) struct Copied {
    pub(crate) log: KeptLog,
    pub(crate) line: String,
}

// Writes a log into the file of its copy, once this is locked and has the rights of that one.
fn write_copy(
    rt: &HostRuntime,
    log: &mut KeptLog,
    limit: u64,
    manifest: &str,
    file: &LogFile,
    new: &NewFile,
) -> Result<Copied, Failure>
    requires usable { IsTrue (⟦<FileFrom<Unknown> as Disk>⟧.is_usable log.old.disk) }
    requires short { length manifest.now < 2 ^ 30 }
    ensures usable { IsTrue (⟦<FileFrom<Unknown> as Disk>⟧.is_usable log.new.disk) }
    ensures copied { IfOk result (λ made. IsCopyOf (⟦<FileFrom<Unknown> as Disk>⟧.seen)
        (⟦<FileFrom<Unknown> as Disk>⟧.may_leave) (⟦<FileFrom<Unknown> as Disk>⟧.is_clean)
        log.old log.new made.log (string_bytes made.line)) }
{
    let mut copy = new_log(new.open(rt)?);
    new.give_as(rt.alloc(), file)?;
    let line = copy_line(rt.alloc(), log, &mut copy, limit, manifest)?;
    Ok(Copied { log: copy, line })
}

// Writes a log into a new file, and gives that the name of the copy. What is printed of it is made before, so that no memory is wanted any
// more once it has the name.
fn fill_copy(
    rt: &HostRuntime,
    log: &mut KeptLog,
    limit: u64,
    manifest: &str,
    file: &LogFile,
    new: &NewFile,
    path: &str,
) -> Result<Copied, Failure>
    requires usable { IsTrue (⟦<FileFrom<Unknown> as Disk>⟧.is_usable log.old.disk) }
    requires short { length manifest.now < 2 ^ 30 }
    ensures usable { IsTrue (⟦<FileFrom<Unknown> as Disk>⟧.is_usable log.new.disk) }
    ensures copied { IfOk result (λ made. IsCopyOf (⟦<FileFrom<Unknown> as Disk>⟧.seen)
        (⟦<FileFrom<Unknown> as Disk>⟧.may_leave) (⟦<FileFrom<Unknown> as Disk>⟧.is_clean)
        log.old log.new made.log (string_bytes made.line)) }
{
    let copied = write_copy(rt, log, limit, manifest, file, new)?;
    new.move_to(rt, path)?;
    Ok(copied)
}

/// Copies a log of this limit and this manifest, which is open in this file, to a path where nothing is. Returns the copy, which is still
/// open. The log is left as it is. Whatever has the name of the copy then is whole; at a fault it hasn't the name, and is removed.
pub(crate) fn copy_to(
    rt: &HostRuntime,
    log: &mut KeptLog,
    limit: u64,
    manifest: &str,
    file: &LogFile,
    path: &str,
) -> Result<Copied, Failure>
    requires usable { IsTrue (⟦<FileFrom<Unknown> as Disk>⟧.is_usable log.old.disk) }
    requires short { length manifest.now < 2 ^ 30 }
    ensures usable { IsTrue (⟦<FileFrom<Unknown> as Disk>⟧.is_usable log.new.disk) }
    ensures copied { IfOk result (λ made. IsCopyOf (⟦<FileFrom<Unknown> as Disk>⟧.seen)
        (⟦<FileFrom<Unknown> as Disk>⟧.may_leave) (⟦<FileFrom<Unknown> as Disk>⟧.is_clean)
        log.old log.new made.log (string_bytes made.line)) }
{
    refuse_reserved(rt.alloc(), path)?;
    refuse_taken(rt, path)?;
    let new = make_new_file(rt, path)?;
    let made = fill_copy(rt, log, limit, manifest, file, &new, path);
    if made.is_err() {
        new.remove(rt);
    }
    made
}

/// Closes a copy, and returns what is printed of it then.
pub(crate) fn close_copy(copied: Copied) -> String
    ensures { result ≡ copied.line }
{
    let Copied { log, line } = copied;
    drop(log);
    line
}

// Opens a log, and copies it.
fn open_and_copy(
    rt: &HostRuntime,
    disk: FileFrom<Unknown>,
    location: &Location,
    path: &str,
) -> Result<String, Failure>
    requires usable { IsTrue (⟦<FileFrom<Unknown> as Disk>⟧.is_usable disk) }
    requires restarted { Only (⟦<FileFrom<Unknown> as Disk>⟧.seen disk)
        (⟦<FileFrom<Unknown> as Disk>⟧.may_leave disk) }
    ensures line { IfOk result (λ line. IsCopyLine (string_bytes line)) }
{
    let mut log = new_log(disk);
    let head = head_there(rt.alloc(), &mut log, location)?;
    let manifest = head.manifest.as_str();
    count_log(rt.alloc(), &mut log, head.limit, manifest.as_bytes())?;
    let copied = copy_to(rt, &mut log, head.limit, manifest, &location.file, path)?;
    Ok(close_copy(copied))
}

/// Copies a log that isn't served to a path where nothing is, and prints how many changes it has since its snapshot.
pub(crate) fn copy_alone(rt: &HostRuntime, log: &str, path: &str) -> Result<(), Failure> {
    let (location, db) = open_at(rt, log)?;
    let line = open_and_copy(rt, db, &location, path)?;
    print!(rt; "{line}")?;
    Ok(())
}
