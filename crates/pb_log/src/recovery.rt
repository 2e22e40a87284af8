//! The records of a disk that a crash may have left.
ghost use Rattle.std.specs.Prelude.{◌≡◌, ◌<◌, ◌≤◌, ℕ, List, [], length, map, vec_len, IfOk, OnOk, IfErr, IsTrue};
ghost use Rattle.sqlite_disk.specs.Disk.{Only};
ghost use Rattle.pb_log.specs.Records.{IsLog, IsAtRest, IsReadable, IsShutOrNew, blocks};
ghost use Rattle.pb_log.specs.Causes.{WhyNotRead, WhyNotRecovered, IsOfTheFile};

use crate::fault::LogFault;
use crate::reading::{CLOSED, ends_shut, read_records};
use sqlite_disk::Disk;
use std::alloc::Global;

// All the bytes of a disk.
fn read_all<D: Disk>(alloc: Global, disk: &mut D) -> Result<Vec<u8>, LogFault>
    requires usable { IsTrue (D.is_usable disk.old) }
    ensures bytes { IfOk result (λ v. IsTrue (D.is_clean disk.new) → v.items ≡ D.seen disk.old) }
    ensures seen { D.seen disk.new ≡ D.seen disk.old }
    ensures usable { IsTrue (D.is_usable disk.new) }
    ensures clean { IsTrue (D.is_clean disk.new) → IsTrue (D.is_clean disk.old) }
    ensures crash { (c : List ℕ) → D.may_leave disk.new c → D.may_leave disk.old c }
    ensures cause { IfErr result (λ e. IsTrue (D.is_clean disk.new)
        → WhyNotRead (D.faults disk.old) (D.faults disk.new) e) }
    ensures faultless { OnOk result (D.faults disk.new ≡ D.faults disk.old) }
{
    let len = disk.len()?;
    let mut bytes = Vec::from_elem(alloc, 0u8, len)?;
    disk.read_at(0, &mut bytes)?;
    Ok(bytes)
}

// The records of a disk, where they end, and how many bytes the file has. What was torn after the closed gate is left there. A
// file of at most one byte is new.
pub fn find_records<D: Disk>(
    alloc: Global,
    disk: &mut D,
) -> Result<(Vec<Vec<u8>>, usize, usize), LogFault>
    requires usable { IsTrue (D.is_usable disk.old) }
    ensures records { IfOk result (λ r. IsTrue (D.is_clean disk.new)
        → IsReadable (D.seen disk.old) (map (λ v. v.items) r.0.items)) }
    ensures read { IfOk result (λ r. IsTrue (D.is_clean disk.new)
        → IsLog (D.seen disk.old) (map (λ v. v.items) r.0.items)) }
    ensures end { IfOk result (λ r. r.1 ≡ length (blocks 0 (map (λ v. v.items) r.0.items))) }
    ensures bytes { IfOk result (λ r. IsTrue (D.is_clean disk.new)
        → r.2 ≡ length (D.seen disk.old)) }
    ensures few { IfOk result (λ r. r.2 ≤ 1 → r.0.items ≡ []) }
    ensures seen { D.seen disk.new ≡ D.seen disk.old }
    ensures usable { IsTrue (D.is_usable disk.new) }
    ensures clean { IsTrue (D.is_clean disk.new) → IsTrue (D.is_clean disk.old) }
    ensures crash { (c : List ℕ) → D.may_leave disk.new c → D.may_leave disk.old c }
    ensures cause { IfErr result (λ e. IsTrue (D.is_clean disk.new)
        → WhyNotRecovered (D.faults disk.old) (D.faults disk.new) (D.seen disk.old) e) }
    ensures faultless { OnOk result (D.faults disk.new ≡ D.faults disk.old) }
{
    let bytes = read_all(alloc, disk)?;
    if bytes.len() <= 1 {
        return Ok((Vec::new(alloc), 0, bytes.len()));
    }
    let (records, end) = read_records(alloc, &bytes)?;
    if !ends_shut(end, &bytes[end..]) {
        return Err(LogFault::Damaged(end));
    }
    Ok((records, end, bytes.len()))
}

// The same, where a crash may come at any time. A new file gets its closed gate.
pub fn recover<D: Disk>(
    alloc: Global,
    disk: &mut D,
) -> Result<(Vec<Vec<u8>>, usize, usize), LogFault>
    requires usable { IsTrue (D.is_usable disk.old) }
    requires restarted { Only (D.seen disk.old) (D.may_leave disk.old) }
    ensures records { IfOk result (λ r. IsTrue (D.is_clean disk.new)
        → IsReadable (D.seen disk.old) (map (λ v. v.items) r.0.items)) }
    ensures read { IfOk result (λ r. IsTrue (D.is_clean disk.new)
        → IsLog (D.seen disk.old) (map (λ v. v.items) r.0.items)) }
    ensures at_rest { IfOk result (λ r. IsTrue (D.is_clean disk.new)
        → IsAtRest (D.seen disk.new) (D.may_leave disk.new) r.1
        (map (λ v. v.items) r.0.items)) }
    ensures usable { OnOk result (IsTrue (D.is_usable disk.new)) }
    ensures clean { IsTrue (D.is_clean disk.new) → IsTrue (D.is_clean disk.old) }
    // On every path a crash leaves a file with the same records.
    ensures crash { IsTrue (D.is_clean disk.new)
        → (rs : List (List ℕ)) → IsLog (D.seen disk.old) rs
        → (c : List ℕ) → D.may_leave disk.new c → IsLog c rs }
    // So it leaves one that begins with records and a closed gate, or a new one.
    ensures shut { IsTrue (D.is_clean disk.new)
        → (rs : List (List ℕ)) → IsReadable (D.seen disk.old) rs
        → (c : List ℕ) → D.may_leave disk.new c → IsShutOrNew c }
    ensures cause { IfErr result (λ e. IsTrue (D.is_clean disk.new)
        → WhyNotRecovered (D.faults disk.old) (D.faults disk.new) (D.seen disk.old) e) }
    ensures kept { IfErr result (λ e. IsOfTheFile e → D.seen disk.new ≡ D.seen disk.old) }
    ensures read_alone { IfOk result (λ r. 0 < vec_len r.0 → D.seen disk.new ≡ D.seen disk.old) }
    ensures old { IfOk result (λ r. 1 < r.2 → D.seen disk.new ≡ D.seen disk.old) }
    ensures bytes { IfOk result (λ r. IsTrue (D.is_clean disk.new)
        → r.2 ≡ length (D.seen disk.old)) }
    ensures faultless { OnOk result (D.faults disk.new ≡ D.faults disk.old) }
{
    let (records, end, len) = find_records(alloc, disk)?;
    if len > 1 {
        return Ok((records, end, len));
    }
    disk.write_at(0, &[CLOSED])?;
    disk.sync()?;
    Ok((records, end, len))
}
