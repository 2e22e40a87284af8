//! A folder in memory, of which all is known that its calls do: for tests, and so that there is one of which each clause holds.
ghost use Rattle.std.specs.Prelude.{◌≡◌, ℕ, [], List, Option, None, Some, false, true, IfSome, IsTrue};
ghost use Rattle.pb_keep.specs.Folders.{leaves_of_closed, seen_of_closed};
ghost use Rattle.pb_keep.specs.declared.folder.NamedLog.TheVariants as files;

use crate::folder::{Folder, NamedLog};
use sqlite_disk::{Disk, Memory};

/// The folder of a log, with a new file in memory. After so many calls each fails and does nothing, as after a crash.
#[derive(Drop)]
pub struct MemoryFolder {
    // The new file, while it is closed.
    file: Option<Memory>,
    named: NamedLog,
    calls: u64,
}

/// Why a call of such a folder failed.
#[derive(Clone, Copy, Debug, Drop)]
pub enum FolderFault {
    /// As many calls were made as the folder has.
    Stopped,
    /// The new file is open, or one of its syncs has failed.
    NotThere,
}

impl MemoryFolder {
    /// A folder with this new file, in which so many calls may be made.
    pub fn new(file: Memory, calls: u64) -> MemoryFolder
        ensures named { ⟦<MemoryFolder as Folder>⟧.named result ≡ files.Old }
        ensures seen { ⟦<MemoryFolder as Folder>⟧.seen result ≡ ⟦<Memory as Disk>⟧.seen file }
        ensures may_leave { (c : List ℕ) → ⟦<MemoryFolder as Folder>⟧.may_leave result c
            → ⟦<Memory as Disk>⟧.may_leave file c }
    {
        MemoryFolder {
            file: Some(file),
            named: NamedLog::Old,
            calls,
        }
    }

    // Takes one of the calls.
    fn call(&mut self) -> Result<(), FolderFault>
        ensures file { self.new.file ≡ self.old.file }
        ensures named { self.new.named ≡ self.old.named }
    {
        if self.calls == 0 {
            return Err(FolderFault::Stopped);
        }
        self.calls -= 1;
        Ok(())
    }
}

impl Folder for MemoryFolder {
    type LogDisk = Memory;

    type CallFault = FolderFault;

    ghost is_known = { λ _. true };

    ghost named = { λ f. f.named };

    ghost seen = { λ f. seen_of_closed ⟦<Memory as Disk>⟧.seen f.file };

    ghost may_leave = { λ f. leaves_of_closed ⟦<Memory as Disk>⟧.may_leave f.file };

    fn close_new(&mut self, file: Memory) {
        self.file = Some(file);
    }

    fn open_new(&mut self) -> Result<Memory, FolderFault> {
        self.call()?;
        match self.file.take() {
            Some(file) if file.may_be_used() => Ok(file),
            _ => Err(FolderFault::NotThere),
        }
    }

    fn rename_new(&mut self) -> Result<(), FolderFault> {
        self.call()?;
        self.named = NamedLog::Either;
        Ok(())
    }

    fn sync(&mut self) -> Result<(), FolderFault> {
        self.call()?;
        self.named = match self.named {
            NamedLog::Old => NamedLog::Old,
            NamedLog::Either | NamedLog::New => NamedLog::New,
        };
        Ok(())
    }
}
