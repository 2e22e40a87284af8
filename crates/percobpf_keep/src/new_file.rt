//! The file of a new log, from a name that no table has to the place of the old log.
ghost use Rattle.std.specs.Prelude.{◌≡◌, ◌↔◌, [], bit_and, false, IfErr, IfOk, IfSome, IsTrue, OnOk, string_bytes};
ghost use Rattle.std.specs.Fs.{metadata_mode, permissions_mode};
ghost use Rattle.pb_keep.specs.declared.folder.NamedLog.TheVariants as files;
ghost use Rattle.sqlite_std_file.specs.File.{IsFresh};
ghost use Rattle.percobpf_keep.specs.Names.{name_beside, new_name, AreNewNames};
ghost use Rattle.percobpf_keep.specs.Left.{IsBeginning, MayHave};
ghost use Rattle.percobpf_keep.specs.Files.{IsDenied, IsOtherFault};

use crate::failure::{Failure, FileState};
use crate::file::{
    FileId, LogFile, Rights, check_name, make_there, named, open_locked, open_there,
};
use crate::names::Location;
use pb_keep::Folder;
use sqlite_disk::{Disk, Unknown};
use sqlite_std_file::FileFrom;
use std::alloc::{AllocError, Global};
use std::fs::{self, File, Metadata, Permissions};
use std::io;
use std::os::unix::fs::{FileExt, MetadataExt, PermissionsExt, fchown};

// How many names a new log may have, of which the first is taken that is free.
const NAMES: u8 = 9;

// How many of the first bytes of a file are looked at: a gate, a length, a sum, and the words of a header.
const LOOKED_AT: usize = 26;

/// The file of a new log.
#[derive(Drop)]
pub(crate) struct NewFile {
    // Its name.
    path: String,
    // That of a file which stands beside it while it is open.
    beside: String,
    pub file: LogFile,
}

// The new log's name of this number.
fn new_name(alloc: Global, log: &str, number: u8) -> Result<String, AllocError>
    ensures { IfOk result (λ path. string_bytes path ≡ new_name log.now number) }
{
    format!(in alloc; "{log}.{number}~new")
}

// The name of the file beside a log of this name.
fn name_beside(alloc: Global, path: &str) -> Result<String, AllocError>
    ensures { IfOk result (λ beside. string_bytes beside ≡ name_beside path.now) }
{
    format!(in alloc; "{path}-wal")
}

// Both names.
fn new_names(alloc: Global, log: &str, number: u8) -> Result<(String, String), AllocError>
    ensures { IfOk result (λ names.
        AreNewNames log.now (string_bytes names.0) (string_bytes names.1)) }
{
    let path = new_name(alloc, log, number)?;
    let beside = name_beside(alloc, path.as_str())?;
    Ok((path, beside))
}

// Whether these first bytes of a file may have this byte there, or one that wasn't written.
fn may_have(first: &[u8], at: usize, byte: u8) -> bool
    ensures { IsTrue result ↔ MayHave first.now at byte }
{
    match first.get(at) {
        Some(there) => *there == 0 || *there == byte,
        None => true,
    }
}

// Whether a file of these first bytes may be a log that a crash left before it was whole.
fn is_beginning(first: &[u8]) -> bool
    ensures { IsTrue result ↔ IsBeginning first.now }
{
    if !may_have(first, 0, 0xa5) {
        return false;
    }
    let words = b"percobpf log ";
    for at in 0..13 {
        if !may_have(first, 13 + at, words[at]) {
            return false;
        }
    }
    true
}

// Whether the file begins as a log.
fn begins_as_log(file: &File) -> io::Result<bool> {
    let mut first = [0; LOOKED_AT];
    let count = file.read_at(&mut first, 0)?;
    Ok(is_beginning(&first[..count]))
}

// Removes this file, if it has this name, nobody has it open as a log, and it begins as one. Returns whether it is removed.
fn remove_left(rt: &HostRuntime, left: &LogFile, path: &str) -> io::Result<bool> {
    let is_left = left.id.has_name(rt, path)? && !left.is_locked()? && begins_as_log(&left.file)?;
    if is_left {
        fs::remove_file(rt, path)?;
    }
    Ok(is_left)
}

// Whether this name is free, once what a crash left of a new log is removed. Whatever else has it stays.
fn is_free(rt: &HostRuntime, path: &str) -> io::Result<bool> {
    match fs::symlink_metadata(rt, path) {
        Ok(found) if found.is_file() && found.nlink() == 1 => {}
        Ok(_) => return Ok(false),
        Err(fault) if fault.kind() == io::ErrorKind::NotFound => return Ok(true),
        Err(fault) => return Err(fault),
    }
    match open_there(rt, path) {
        Ok(left) => remove_left(rt, &left, path),
        Err(fault) if fault.kind() == io::ErrorKind::PermissionDenied => Ok(false),
        Err(fault) => Err(fault),
    }
}

// The same, with the name in what is reported.
fn is_name_free(rt: &HostRuntime, path: &str) -> Result<bool, Failure> {
    named(rt.alloc(), path, is_free(rt, path))
}

/// Removes what is left of new logs that aren't in the place of this one. Returns the first names that are free then for a new one,
/// and for the file beside it.
pub(crate) fn remove_new(rt: &HostRuntime, log: &str) -> Result<Option<(String, String)>, Failure>
    ensures { IfOk result (λ free. IfSome free (λ names.
        AreNewNames log.now (string_bytes names.0) (string_bytes names.1))) }
{
    let mut free = None;
    for number in 1..=NAMES {
        let names = new_names(rt.alloc(), log, number)?;
        let is_free = is_name_free(rt, names.0.as_str())?;
        if is_name_free(rt, names.1.as_str())? && is_free && free.is_none() {
            free = Some(names);
        }
    }
    Ok(free)
}

fn make(rt: &HostRuntime, path: &str) -> io::Result<LogFile> {
    let made = LogFile::new(make_there(rt, path, Rights::OwnerAlone)?);
    if made.is_err() {
        // What was made is taken away: it is empty, and nobody has it open.
        let _ = is_free(rt, path);
    }
    made
}

/// Makes the file of a new log, which nobody else may open yet, for one of this name.
pub(crate) fn make_new_file(rt: &HostRuntime, log: &str) -> Result<NewFile, Failure>
    ensures { IfOk result (λ new. AreNewNames log.now
        (string_bytes new.path) (string_bytes new.beside)) }
{
    let Some((path, beside)) = remove_new(rt, log)? else {
        return Err(Failure::of_file(rt.alloc(), log, FileState::NamesTaken));
    };
    let file = named(rt.alloc(), path.as_str(), make(rt, path.as_str()))?;
    Ok(NewFile { path, beside, file })
}

// A call that was done, or that the system denies this user.
fn unless_denied(given: io::Result<()>) -> io::Result<()>
    ensures ok { OnOk result (IfErr given IsDenied) }
    ensures err { IfErr result (IsOtherFault given) }
{
    match given {
        Ok(()) => Ok(()),
        Err(fault) => match fault.kind() {
            io::ErrorKind::PermissionDenied => Ok(()),
            _ => Err(fault),
        },
    }
}

// The rights of a file of which this was found: who may read, write and run it, and nothing else of its mode.
fn rights_of(found: &Metadata) -> Permissions
    ensures { permissions_mode result ≡ bit_and (metadata_mode found.now) 0o777 }
{
    Permissions::from_mode(found.mode() & 0o777)
}

// Gives a file to the group and the owner of another one, with the same rights. It is the file that is given, and not what has
// its name by then, which may be a link.
fn give(file: &File, other: &File) -> io::Result<()> {
    let found = other.metadata()?;
    // Only root sets another owner, and a member of the group may set that.
    unless_denied(fchown(file, None, Some(found.gid())))?;
    unless_denied(fchown(file, Some(found.uid()), None))?;
    file.set_permissions(rights_of(&found))
}

// Takes this name from the file, which has the other one too, and waits until that is on the disk.
fn unlink_synced(
    rt: &HostRuntime,
    folder: &File,
    id: FileId,
    path: &str,
    other: &str,
) -> io::Result<()> {
    // The name may have led to another file as the other one was given to it.
    if !id.has_name(rt, other)? {
        return Err(io::ErrorKind::Unsupported.into());
    }
    fs::remove_file(rt, path)?;
    folder.sync_all()
}

// Gives the file of this name another one, which nothing may have, in the place of this one. At a fault it doesn't have the other one.
fn link_synced(rt: &HostRuntime, id: FileId, path: &str, other: &str) -> io::Result<()> {
    let mut real = fs::canonicalize(rt, path)?;
    real.pop();
    let folder = File::open(rt, real.as_str())?;
    fs::hard_link(rt, path, other)?;
    let done = unlink_synced(rt, &folder, id, path, other);
    if done.is_err() && matches!(id.has_name(rt, other), Ok(true)) {
        let _ = fs::remove_file(rt, other);
    }
    done
}

impl NewFile {
    /// Opens it as a log, locked.
    pub(crate) fn open(&self, rt: &HostRuntime) -> Result<FileFrom<Unknown>, Failure>
        ensures usable { IfOk result (λ db. IsTrue (⟦<FileFrom<Unknown> as Disk>⟧.is_usable db)) }
        ensures fresh { IfOk result (λ db. IsFresh false db) }
    {
        open_locked(rt, &self.file, self.path.as_str())
    }

    /// Gives it to those who may read and write the file of another log.
    pub(crate) fn give_as(&self, alloc: Global, other: &LogFile) -> Result<(), Failure> {
        named(
            alloc,
            self.path.as_str(),
            give(&self.file.file, &other.file),
        )
    }

    /// Gives it a name that nothing may have in the place of its own, and waits until that is on the disk. The file beside it is removed before,
    /// so that nothing is left to do once it has the name. At a fault it doesn't have it.
    pub(crate) fn move_to(&self, rt: &HostRuntime, path: &str) -> Result<(), Failure> {
        let (id, own) = (self.file.id, self.path.as_str());
        check_name(rt, id, own)?;
        is_name_free(rt, self.beside.as_str())?;
        named(rt.alloc(), path, link_synced(rt, id, own, path))
    }

    /// Removes it, and the file beside it. Memory isn't wanted for that.
    pub(crate) fn remove(self, rt: &HostRuntime) {
        let NewFile { path, beside, file } = self;
        // Its lock goes with it, as a file that is locked isn't removed.
        drop(file);
        let _ = is_free(rt, path.as_str());
        let _ = is_free(rt, beside.as_str());
    }
}

/// The folder of a log, in which a new one takes its place. Its contracts know nothing of what its calls do, since no contract of the
/// standard library states it of the files of a host.
#[derive(Drop)]
pub(crate) struct LogFolder<'a> {
    rt: &'a HostRuntime,
    location: &'a Location,
    new: &'a NewFile,
    // It is open before anything is renamed.
    folder: File,
}

impl<'a> LogFolder<'a> {
    /// The folder of this log, with the file of a new one.
    pub(crate) fn new(
        rt: &'a HostRuntime,
        location: &'a Location,
        new: &'a NewFile,
    ) -> Result<LogFolder<'a>, Failure> {
        let path = location.folder.as_str();
        let folder = named(rt.alloc(), path, File::open(rt, path))?;
        Ok(LogFolder {
            rt,
            location,
            new,
            folder,
        })
    }
}

impl Folder for LogFolder<'_> {
    type LogDisk = FileFrom<Unknown>;

    type CallFault = Failure;

    ghost is_known = { λ _. false };

    ghost named = { λ _. files.Old };

    ghost seen = { λ _. [] };

    ghost may_leave = { λ _ _. ⊥ };

    // The lock goes with it.
    fn close_new(&mut self, file: FileFrom<Unknown>) {
        let _closed = file;
    }

    // It is locked, and belongs to those who may read and write the old log.
    fn open_new(&mut self) -> Result<FileFrom<Unknown>, Failure> {
        let file = self.new.open(self.rt)?;
        self.new.give_as(self.rt.alloc(), &self.location.file)?;
        Ok(file)
    }

    fn rename_new(&mut self) -> Result<(), Failure> {
        let (path, log) = (self.new.path.as_str(), self.location.log.as_str());
        check_name(self.rt, self.location.file.id, log)?;
        check_name(self.rt, self.new.file.id, path)?;
        named(self.rt.alloc(), log, fs::rename(self.rt, path, log))
    }

    // The file beside the new one is removed too.
    fn sync(&mut self) -> Result<(), Failure> {
        let log = self.location.log.as_str();
        named(self.rt.alloc(), log, self.folder.sync_all())?;
        check_name(self.rt, self.new.file.id, log)?;
        is_name_free(self.rt, self.new.beside.as_str())?;
        Ok(())
    }
}
