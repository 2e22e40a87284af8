//! The folder of a log, in which a new log takes the old one's place.
ghost use Rattle.std.specs.Prelude.{◌≡◌, ◌⊎◌, ℕ, Bool, List, IfOk, IsTrue, OnErr, OnOk};
ghost use Rattle.sqlite_disk.specs.Disk.{Only};
ghost use Rattle.pb_keep.specs.declared.folder.NamedLog.{NamedLog};
ghost use Rattle.pb_keep.specs.declared.folder.NamedLog.TheVariants as files;

use sqlite_disk::Disk;

/// Which file has the name of a log after a crash.
#[derive(Clone, Copy)]
pub enum NamedLog {
    /// That of the old log.
    Old,
    /// One of both.
    Either,
    /// That of the new log.
    New,
}

/// The folder of a log, with a file for a new log in it, which is closed. The contracts state what its calls do, and what a crash
/// leaves, as far as that is known: no contract of the standard library states it of the files of a host.
pub trait Folder {
    /// An open file of the folder.
    type LogDisk: Disk + Drop;

    /// Why a call failed.
    type CallFault: Drop;

    /// Whether it is known what the calls have done so far.
    ghost is_known: { Self → Bool };

    /// Which file has the name of the log after a crash.
    ghost named: { Self → NamedLog };

    /// What the new file has, while it is closed.
    ghost seen: { Self → List ℕ };

    /// What it may have after a crash.
    ghost may_leave: { Self → List ℕ → Type 0 };

    /// Closes the new file. What it has is still known then if no wrong answer of it was taken as true.
    fn close_new(&mut self, file: Self::LogDisk)
        ensures known { IsTrue (is_known self.new) → IsTrue (is_known self.old) }
        ensures clean { IsTrue (is_known self.new) → IsTrue (Self.LogDisk.is_clean file) }
        ensures seen { IsTrue (is_known self.new) → seen self.new ≡ Self.LogDisk.seen file }
        ensures may_leave { IsTrue (is_known self.new)
            → (c : List ℕ) → may_leave self.new c → Self.LogDisk.may_leave file c }
        ensures named { IsTrue (is_known self.new) → named self.new ≡ named self.old };

    /// Opens the new file. All that it has is on the disk.
    fn open_new(&mut self) -> Result<Self::LogDisk, Self::CallFault>
        requires durable { IsTrue (is_known self.old) → Only (seen self.old) (may_leave self.old) }
        ensures usable { IfOk result (λ f. IsTrue (Self.LogDisk.is_usable f)) }
        ensures fresh { IfOk result (λ f. Only (Self.LogDisk.seen f) (Self.LogDisk.may_leave f)) }
        ensures seen { IfOk result (λ f. IsTrue (is_known self.new)
            → Self.LogDisk.seen f ≡ seen self.old) }
        ensures known { IsTrue (is_known self.new) → IsTrue (is_known self.old) }
        ensures named { IsTrue (is_known self.new) → named self.new ≡ named self.old };

    /// Gives the name of the log to the new file. That is on the disk once the folder is synced.
    fn rename_new(&mut self) -> Result<(), Self::CallFault>
        ensures known { IsTrue (is_known self.new) → IsTrue (is_known self.old) }
        ensures ok { OnOk result (IsTrue (is_known self.new) → named self.new ≡ files.Either) }
        ensures err { OnErr result (IsTrue (is_known self.new)
            → (named self.new ≡ named self.old) ⊎ (named self.new ≡ files.Either)) };

    /// Waits until the name is on the disk.
    fn sync(&mut self) -> Result<(), Self::CallFault>
        ensures known { IsTrue (is_known self.new) → IsTrue (is_known self.old) }
        ensures ok { OnOk result (IsTrue (is_known self.new)
            → named self.old ≡ files.Either → named self.new ≡ files.New) }
        ensures err { OnErr result (IsTrue (is_known self.new)
            → named self.new ≡ named self.old) };
}
