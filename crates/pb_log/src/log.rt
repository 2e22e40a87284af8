//! A log over a disk, and how a record is put into it.
ghost use Rattle.std.specs.Prelude.{◌≡◌, ◌++◌, ◌∷◌, [], ◌<◌, ◌^◌, ℕ, List, length, IfOk, OnOk, IfErr, IsTrue};
ghost use Rattle.pb_log.specs.Records.{body, IsBeforeOrAfter, IsShutBeforeOrAfter, IsAtRest};
ghost use Rattle.pb_log.specs.Causes.{WhyNotPut, IsNotBegun};

use crate::fault::LogFault;
use crate::reading::{CLOSED, OPEN};
use sqlite_disk::{Disk, digest_of};
use std::alloc::{AllocError, Global};

/// The place in bytes from which on no record begins, so that no place goes over the numbers of a disk.
pub const MAX_END: usize = 1 << 62;

/// A log, and the place of its closed gate, in bytes.
#[derive(Drop)]
pub struct Log<D: Disk> {
    pub disk: D,
    pub end: usize,
}

// What is written after a closed gate at this place: the record's length, its sum, its bytes, and the next gate, closed.
fn after_gate(alloc: Global, at: usize, item: &[u8]) -> Result<Vec<u8>, AllocError>
    requires { length item.now < 2 ^ 32 }
    ensures { IfOk result (λ v. v.items ≡ body at item.now ++ 0 ∷ []) }
{
    let mut bytes = Vec::new(alloc);
    bytes.extend_from_slice(&(item.len() as u32).to_le_bytes())?;
    bytes.extend_from_slice(&digest_of(at as u64, item).to_le_bytes())?;
    bytes.extend_from_slice(item)?;
    bytes.push(CLOSED)?;
    Ok(bytes)
}

impl<D: Disk> Log<D> {
    /// A log over a disk, which isn't opened yet: `open` finds where its records end.
    pub fn new(disk: D) -> Log<D>
        ensures { result.disk ≡ disk }
    {
        Log { disk, end: 0 }
    }

    /// Adds a record of less than 2^32 bytes. At `Ok` it is acknowledged: from then on each crash leaves a file that has it.
    /// At `Disk` the file may have it or not, so open it again. At `Full` and `NoMemory` nothing was done.
    pub fn put(&mut self, alloc: Global, item: &[u8]) -> Result<(), LogFault>
        requires usable { IsTrue (D.is_usable self.old.disk) }
        requires short { length item.now < 2 ^ 32 }
        ensures acknowledged { (rs : List (List ℕ))
            → IsAtRest (D.seen self.old.disk) (D.may_leave self.old.disk) self.old.end rs
            → OnOk result (IsAtRest (D.seen self.new.disk) (D.may_leave self.new.disk)
            self.new.end (rs ++ item.now ∷ [])) }
        ensures usable { OnOk result (IsTrue (D.is_usable self.new.disk)) }
        ensures clean { D.is_clean self.new.disk ≡ D.is_clean self.old.disk }
        // On every path a crash leaves the records of before, with the new one or without.
        ensures crash { (rs : List (List ℕ))
            → IsAtRest (D.seen self.old.disk) (D.may_leave self.old.disk) self.old.end rs
            → (c : List ℕ) → D.may_leave self.new.disk c → IsBeforeOrAfter rs item.now c }
        // Where each byte of a torn write is old or new, a closed gate stands after these records.
        ensures shut { ((d : _) → IsTrue (D.is_mixing d)) → (rs : List (List ℕ))
            → IsAtRest (D.seen self.old.disk) (D.may_leave self.old.disk) self.old.end rs
            → (c : List ℕ) → D.may_leave self.new.disk c → IsShutBeforeOrAfter rs item.now c }
        ensures cause { IfErr result
            (WhyNotPut (D.faults self.old.disk) (D.faults self.new.disk) self.old.end) }
        ensures refused { IfErr result (λ e. IsNotBegun e → self.new ≡ self.old) }
        ensures faultless { OnOk result (D.faults self.new.disk ≡ D.faults self.old.disk) }
    {
        if self.end >= MAX_END {
            return Err(LogFault::Full);
        }
        let bytes = after_gate(alloc, self.end, item)?;
        self.disk.write_at(self.end + 1, &bytes)?;
        self.disk.sync()?;
        self.disk.write_at(self.end, &[OPEN])?;
        self.disk.sync()?;
        self.end += bytes.len();
        Ok(())
    }
}
