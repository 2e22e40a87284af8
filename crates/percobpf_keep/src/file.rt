//! The file of a log, which is locked while it is open.
ghost use Rattle.std.specs.Prelude.{◌≡◌, ◌↔◌, false, true, IfErr, IfOk, IsTrue, Ok, OnOk};
ghost use Rattle.std.specs.Fs.{asks_create_new, new_options, with_read, with_write};
ghost use Rattle.sqlite_std_file.specs.File.{IsFresh};
ghost use Rattle.percobpf_keep.specs.Failures.{IsOfName};
ghost use Rattle.percobpf_keep.specs.Files.{mode_of, IsFoundUnder, IsOfNamed};

use crate::failure::{Failure, FileState};
use sqlite_disk::{Disk, Files, Unknown};
use sqlite_std_file::{FileFrom, open};
use std::alloc::Global;
use std::fs::{self, File, Metadata, OpenOptions, TryLockError};
use std::io;
use std::os::fd::AsRawFd;
use std::os::unix::fs::{MetadataExt, OpenOptionsExt};

/// By what a file is known while it is open, since no other file gets its number then.
#[derive(Clone, Copy)]
pub(crate) struct FileId {
    device: u64,
    number: u64,
}

impl FileId {
    // That of a file of which this was found.
    fn of(found: &Metadata) -> FileId {
        FileId {
            device: found.dev(),
            number: found.ino(),
        }
    }

    // Whether the file that was found under a name, if one was, is this one.
    fn is_named(self, there: Option<FileId>) -> bool
        ensures { IsTrue result ↔ IsFoundUnder self there }
    {
        match there {
            Some(other) => other.device == self.device && other.number == self.number,
            None => false,
        }
    }

    /// Whether the file has this name, itself and not by a link.
    pub(crate) fn has_name(self, rt: &HostRuntime, path: &str) -> io::Result<bool> {
        Ok(self.is_named(id_there(rt, path)?))
    }
}

// What has this name, itself and not by a link, if anything has.
fn id_there(rt: &HostRuntime, path: &str) -> io::Result<Option<FileId>> {
    match fs::symlink_metadata(rt, path) {
        Ok(found) => Ok(Some(FileId::of(&found))),
        Err(fault) if fault.kind() == io::ErrorKind::NotFound => Ok(None),
        Err(fault) => Err(fault),
    }
}

/// The file of a log, which is open for as long as this is there.
#[derive(Drop)]
pub(crate) struct LogFile {
    pub file: File,
    pub id: FileId,
}

impl LogFile {
    /// This file, which was opened for reading and writing.
    pub(crate) fn new(opened: File) -> io::Result<LogFile> {
        let mut file = opened;
        // What is written to a standard stream that was closed doesn't get into a log.
        if file.as_raw_fd() <= 2 {
            file = file.try_clone()?;
        }
        let id = FileId::of(&file.metadata()?);
        Ok(LogFile { file, id })
    }

    /// Whether another program has this file as a log. If none has, this one has it from then on, for as long as this is there.
    pub(crate) fn is_locked(&self) -> io::Result<bool> {
        match self.file.try_lock() {
            Ok(()) => Ok(false),
            Err(TryLockError::WouldBlock) => Ok(true),
            Err(TryLockError::Error(fault)) => Err(fault),
        }
    }
}

/// What was done with a file, or why it wasn't, with the name of the file.
pub(crate) fn named<T: Drop>(alloc: Global, path: &str, done: io::Result<T>) -> Result<T, Failure>
    ensures ok { IfOk result (λ x. done ≡ Ok x) }
    ensures err { IfErr result (IsOfNamed path.now done) }
{
    match done {
        Ok(x) => Ok(x),
        Err(error) => Err(Failure::of_call(alloc, path, error)),
    }
}

/// Who may open a file that is made.
#[derive(Clone, Copy)]
pub(crate) enum Rights {
    /// Its owner alone.
    OwnerAlone,
    /// Others may read it too, but for those whom the umask takes away.
    ReadByOthers,
}

impl Rights {
    // The mode of the file.
    fn mode(self) -> u32
        ensures { result ≡ mode_of self }
    {
        match self {
            Rights::OwnerAlone => 0o600,
            Rights::ReadByOthers => 0o644,
        }
    }
}

// How a log is opened: it isn't made, and nothing of it is dropped.
fn log_options() -> OpenOptions
    ensures { result ≡ with_write (with_read new_options true) true }
{
    let mut options = OpenOptions::new();
    options.read(true).write(true);
    options
}

// How a log is made with these rights: where nothing has its name.
fn new_log_options(rights: Rights) -> OpenOptions
    ensures { IsTrue (asks_create_new result) }
{
    let mut options = log_options();
    options.mode(rights.mode());
    options.create_new(true);
    options
}

/// Makes the file of this name, with these rights, where nothing has it, a link neither.
pub(crate) fn make_there(rt: &HostRuntime, path: &str, rights: Rights) -> io::Result<File> {
    new_log_options(rights).open(rt, path)
}

// The file that this name leads to.
fn open_to_write(rt: &HostRuntime, path: &str) -> io::Result<File> {
    log_options().open(rt, path)
}

// The file of this name, which is made. Where another program has made it meanwhile, that one is opened. A link that leads to nothing is
// reported so.
fn make_or_open(rt: &HostRuntime, path: &str) -> io::Result<File> {
    match make_there(rt, path, Rights::ReadByOthers) {
        Err(fault) if fault.kind() == io::ErrorKind::AlreadyExists => open_to_write(rt, path),
        made => made,
    }
}

// The file of this name, which is made where there is none. None is made where a link leads.
fn hold(rt: &HostRuntime, path: &str) -> io::Result<File> {
    match fs::metadata(rt, path) {
        Ok(found) if found.is_file() => open_to_write(rt, path),
        Ok(_) => Err(io::ErrorKind::Unsupported.into()),
        Err(fault) if fault.kind() == io::ErrorKind::NotFound => make_or_open(rt, path),
        Err(fault) => Err(fault),
    }
}

/// Makes the file of a log, where there is none.
pub(crate) fn make_log(rt: &HostRuntime, path: &str) -> Result<(), Failure> {
    let _file = named(rt.alloc(), path, hold(rt, path))?;
    Ok(())
}

/// The file that has this name itself, and not by a link.
pub(crate) fn open_there(rt: &HostRuntime, path: &str) -> io::Result<LogFile> {
    if !fs::symlink_metadata(rt, path)?.is_file() {
        return Err(io::ErrorKind::Unsupported.into());
    }
    LogFile::new(open_to_write(rt, path)?)
}

// Whether this file has this name, and no other program has it as a log.
fn is_own_there(rt: &HostRuntime, log: &LogFile, path: &str) -> io::Result<bool> {
    Ok(log.id.has_name(rt, path)? && !log.is_locked()?)
}

// Reports a name for what is so of it, unless it is that of the same file.
fn refuse_other(
    alloc: Global,
    path: &str,
    is_same: io::Result<bool>,
    state: FileState,
) -> Result<(), Failure>
    ensures ok { OnOk result (is_same ≡ Ok true) }
    ensures err { IfErr result (IsOfName path.now state is_same) }
{
    match is_same {
        Ok(true) => Ok(()),
        Ok(false) => Err(Failure::of_file(alloc, path, state)),
        Err(fault) => Err(Failure::of_call(alloc, path, fault)),
    }
}

/// This file once more, with the lock of a log. It has this name.
pub(crate) fn open_locked(
    rt: &HostRuntime,
    log: &LogFile,
    path: &str,
) -> Result<FileFrom<Unknown>, Failure>
    ensures usable { IfOk result (λ db. IsTrue (⟦<FileFrom<Unknown> as Disk>⟧.is_usable db)) }
    ensures fresh { IfOk result (λ db. IsFresh false db) }
{
    // So no link is followed that was put there before.
    refuse_other(
        rt.alloc(),
        path,
        log.id.has_name(rt, path),
        FileState::OtherLog,
    )?;
    let Files { log: _, db } = match open(rt, path, Unknown) {
        Ok(files) => files,
        Err(error) => return Err(Failure::of_opening(rt.alloc(), path, error)),
    };
    // A compaction may have put another file in its place before the lock was there, and none can from then on. By the second
    // lock, which is on this very file, others see that it is in use.
    refuse_other(
        rt.alloc(),
        path,
        is_own_there(rt, log, path),
        FileState::OtherLog,
    )?;
    Ok(db)
}

/// Reports a file that no longer has this name.
pub(crate) fn check_name(rt: &HostRuntime, id: FileId, path: &str) -> Result<(), Failure> {
    refuse_other(rt.alloc(), path, id.has_name(rt, path), FileState::Lost)
}
