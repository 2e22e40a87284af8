//! Where files are read and written: the one thing that commands ask of a system, so that all else
//! is proved over any system.
ghost use Rattle.std.specs.Prelude.{◌≡◌, true, Bool, IfOk, IfErr, OnOk, OnErr};
ghost use Rattle.pb_files.specs.Files.{Held, IsKnownAs, IsFaultKnownAs, KeepsOthers};

use pb_base::NoMemory;

/// Why a file isn't read or written.
#[derive(Debug, PartialEq, Eq, Drop)]
pub enum PathFault {
    /// It isn't there or can't be made, or a read or a write failed.
    Failed,
    /// It has more than 16,777,216 bytes. For a write it means no more than `Failed`.
    TooLarge,
    /// A growth was refused.
    NoMemory(NoMemory),
}

/// Reads and writes files by their paths. `held` gives what reading a path answers, if that is
/// known, and `failed` whether a write has failed.
pub trait Paths {
    ghost held: { Self → Held };

    ghost failed: { Self → Bool };

    /// The bytes of the file at a path.
    fn read(&mut self, path: &str) -> Result<Vec<u8>, PathFault>
        ensures bytes { IfOk result (λ v. IsKnownAs (held self.old path.now) (Ok v.items)) }
        ensures fault { IfErr result (IsFaultKnownAs (held self.old path.now)) }
        ensures same { held self.new ≡ held self.old }
        ensures quiet { failed self.new ≡ failed self.old };

    /// Makes the bytes the whole file at a path. If that fails, the path may hold anything.
    fn write(&mut self, path: &str, bytes: &[u8]) -> Result<(), PathFault>
        ensures bytes { OnOk result (IsKnownAs (held self.new path.now) (Ok bytes.now)) }
        ensures others { KeepsOthers (held self.old) (held self.new) path.now }
        ensures quiet { OnOk result (failed self.new ≡ failed self.old) }
        ensures fails { OnErr result (failed self.new ≡ true) };
}
