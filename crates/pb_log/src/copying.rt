//! A copy of a log, in another file.
ghost use Rattle.std.specs.Prelude.{◌≡◌, ◌≢◌, ◌⊎◌, ◌<◌, ◌∷◌, [], ℕ, List, length, IfOk, IfErr, OnOk, IsTrue};
ghost use Rattle.sqlite_disk.specs.Disk.{Holds, Only};
ghost use Rattle.pb_log.specs.Records.{IsAtRest, IsLog, IsReadable};
ghost use Rattle.pb_log.specs.Causes.{WhyNotCopied, WhyNotRead};

use crate::fault::LogFault;
use crate::log::Log;
use crate::reading::{CLOSED, OPEN};
use sqlite_disk::Disk;
use std::alloc::Global;

// So many bytes of a disk, from the second on.
fn read_rest<D: Disk>(alloc: Global, disk: &mut D, len: usize) -> Result<Vec<u8>, LogFault>
    requires usable { IsTrue (D.is_usable disk.old) }
    requires some { 0 < len }
    ensures bytes { IfOk result (λ v. IsTrue (D.is_clean disk.new)
        → Holds (D.seen disk.old) 1 v.items) }
    ensures size { IfOk result (λ v. length v.items ≡ len) }
    ensures seen { D.seen disk.new ≡ D.seen disk.old }
    ensures usable { IsTrue (D.is_usable disk.new) }
    ensures clean { IsTrue (D.is_clean disk.new) → IsTrue (D.is_clean disk.old) }
    ensures crash { (c : List ℕ) → D.may_leave disk.new c → D.may_leave disk.old c }
    ensures cause { IfErr result (λ e. IsTrue (D.is_clean disk.new)
        → len < length (D.seen disk.old)
        → WhyNotRead (D.faults disk.old) (D.faults disk.new) e) }
    ensures faultless { OnOk result (D.faults disk.new ≡ D.faults disk.old) }
{
    let mut bytes = Vec::from_elem(alloc, 0u8, len)?;
    disk.read_at(1, &mut bytes)?;
    Ok(bytes)
}

// Writes the bytes of a log into an empty file: these after a closed gate, which is opened once they are on the disk.
fn write_whole<E: Disk>(disk: &mut E, rest: &[u8]) -> Result<(), LogFault>
    requires usable { IsTrue (E.is_usable disk.old) }
    requires restarted { Only (E.seen disk.old) (E.may_leave disk.old) }
    requires some { 0 < length rest.now }
    ensures written { E.seen disk.old ≡ [] → OnOk result (E.seen disk.new ≡ 165 ∷ rest.now) }
    ensures durable { OnOk result (Only (E.seen disk.new) (E.may_leave disk.new)) }
    ensures usable { OnOk result (IsTrue (E.is_usable disk.new)) }
    ensures clean { E.is_clean disk.new ≡ E.is_clean disk.old }
    // On every path a crash leaves no record, or all of them.
    ensures crash { E.seen disk.old ≡ []
        → (c : List ℕ) → E.may_leave disk.new c → IsLog c [] ⊎ (c ≡ 165 ∷ rest.now) }
    ensures cause { IfErr result (WhyNotRead (E.faults disk.old) (E.faults disk.new)) }
    ensures faultless { OnOk result (E.faults disk.new ≡ E.faults disk.old) }
{
    disk.write_at(0, &[CLOSED])?;
    disk.sync()?;
    disk.write_at(1, rest)?;
    disk.sync()?;
    disk.write_at(0, &[OPEN])?;
    disk.sync()?;
    Ok(())
}

impl<D: Disk> Log<D> {
    /// Copies a log that is open into another file, which has to be empty. At `Ok` all of the copy is on the disk, and it is open as this log
    /// is, with the same records; a later `open` finds them. At `Disk` and `NoMemory` the file may have no record, or all of them. At
    /// `NoHeader` nothing was done: this log isn't open, or the file has bytes. This log is left as it is in any case. It has to fit
    /// into memory.
    pub fn copy_into<E: Disk>(&mut self, alloc: Global, copy: &mut Log<E>) -> Result<(), LogFault>
        requires usable { IsTrue (D.is_usable self.old.disk) }
        requires usable_copy { IsTrue (E.is_usable copy.old.disk) }
        // After a restart, what is read is what is on the disk.
        requires restarted { Only (E.seen copy.old.disk) (E.may_leave copy.old.disk) }
        ensures copied { (rs : List (List ℕ))
            → IsAtRest (D.seen self.old.disk) (D.may_leave self.old.disk) self.old.end rs
            → OnOk result (IsTrue (D.is_clean self.new.disk)
            → IsTrue (E.is_clean copy.new.disk)
            → IsAtRest (E.seen copy.new.disk) (E.may_leave copy.new.disk) copy.new.end rs) }
        ensures readable { (rs : List (List ℕ))
            → IsAtRest (D.seen self.old.disk) (D.may_leave self.old.disk) self.old.end rs
            → OnOk result (IsTrue (D.is_clean self.new.disk)
            → IsTrue (E.is_clean copy.new.disk)
            → IsReadable (E.seen copy.new.disk) rs) }
        ensures durable { OnOk result
            (Only (E.seen copy.new.disk) (E.may_leave copy.new.disk)) }
        // A file that has bytes is none for a copy, and is left as it is.
        ensures empty { OnOk result (IsTrue (E.is_clean copy.new.disk)
            → E.seen copy.old.disk ≡ []) }
        ensures kept_copy { IsTrue (E.is_clean copy.new.disk) → E.seen copy.old.disk ≢ []
            → E.seen copy.new.disk ≡ E.seen copy.old.disk }
        // On every path a crash leaves no record in the copy, or all of them.
        ensures crash { (rs : List (List ℕ))
            → IsAtRest (D.seen self.old.disk) (D.may_leave self.old.disk) self.old.end rs
            → IsTrue (D.is_clean self.new.disk) → E.seen copy.old.disk ≡ []
            → (c : List ℕ) → E.may_leave copy.new.disk c → IsLog c [] ⊎ IsLog c rs }
        ensures seen { D.seen self.new.disk ≡ D.seen self.old.disk }
        ensures end { self.new.end ≡ self.old.end }
        ensures kept { (c : List ℕ)
            → D.may_leave self.new.disk c → D.may_leave self.old.disk c }
        ensures usable { IsTrue (D.is_usable self.new.disk) }
        ensures usable_copy { OnOk result (IsTrue (E.is_usable copy.new.disk)) }
        ensures clean { IsTrue (D.is_clean self.new.disk) → IsTrue (D.is_clean self.old.disk) }
        ensures cause { (rs : List (List ℕ))
            → IsAtRest (D.seen self.old.disk) (D.may_leave self.old.disk) self.old.end rs
            → IfErr result (λ e. IsTrue (D.is_clean self.new.disk)
            → IsTrue (E.is_clean copy.new.disk)
            → WhyNotCopied (D.faults self.old.disk) (D.faults self.new.disk)
            (E.faults copy.old.disk) (E.faults copy.new.disk) self.old.end
            (E.seen copy.old.disk) e) }
        ensures faultless { OnOk result (E.faults copy.new.disk ≡ E.faults copy.old.disk) }
    {
        if self.end == 0 {
            return Err(LogFault::NoHeader);
        }
        let len = copy.disk.len()?;
        if len > 0 {
            return Err(LogFault::NoHeader);
        }
        let rest = read_rest(alloc, &mut self.disk, self.end)?;
        write_whole(&mut copy.disk, &rest)?;
        copy.end = self.end;
        Ok(())
    }
}
