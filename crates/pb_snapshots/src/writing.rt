//! A snapshot as the bytes of its record.
ghost use Rattle.std.specs.Prelude.{◌≡◌, ◌<◌, ◌^◌, ◌++◌, ◌↔◌, IfOk, OnOk, IfSome, IsSome, true};
ghost use Rattle.std.specs.List.{flat_map, AllByRecursion};
ghost use Rattle.pb_snapshots.specs.Snapshot.{snapshot_value, is_of_its_cell, are_of_their_cells, number_bytes, version_kind, held_bytes, version_bytes, stats_bytes, snapshot_bytes, FitsHeld, FitsVersion, FitsStats, FitsSnapshot};

use crate::snapshot::Snapshot;
use pb_base::{Cell, Content, NoMemory, Revision, Ts};
use pb_keeper::ObserverStats;
use pb_state::is_content_of;
use std::alloc::{AllocError, Global};

// Whether each cell holds such contents.
fn are_of_their_cells(cells: &[(Cell, Revision)]) -> bool
    ensures { result ≡ are_of_their_cells cells.now }
{
    for version in cells {
        if !is_content_of(&version.0, &version.1) {
            return false;
        }
    }
    true
}

// The number by which a record names the kind of a version.
fn kind_of(cell: &Cell, content: &Content) -> u8
    ensures { result ≡ version_kind cell.now content.now }
{
    match cell {
        Cell::Ack(..) => 2,
        Cell::Data(..) => match content {
            Content::Value(_) => 0,
            _ => 1,
        },
    }
}

// Adds a number.
fn push_number(bytes: &mut Vec<u8>, number: u64) -> Result<(), AllocError>
    ensures added { OnOk result (bytes.new.items ≡ bytes.old.items ++ number_bytes number) }
    ensures within { number < 2 ^ 64 }
{
    bytes.extend_from_slice(&number.to_le_bytes())
}

// Adds what a version holds.
fn push_held(bytes: &mut Vec<u8>, cell: &Cell, content: &Content) -> Result<(), AllocError>
    ensures added { OnOk result (bytes.new.items
        ≡ bytes.old.items ++ held_bytes cell.now content.now) }
    ensures fits { OnOk result (FitsHeld cell.now content.now) }
{
    match cell {
        Cell::Ack(observer, ..) => bytes.push(observer.number())?,
        Cell::Data(..) => {
            if let Content::Value(value) = content {
                bytes.extend_from_slice(value)?;
            }
        }
    }
    Ok(())
}

// Adds a cell and its version.
fn push_version(bytes: &mut Vec<u8>, version: &(Cell, Revision)) -> Result<(), AllocError>
    ensures added { OnOk result (bytes.new.items ≡ bytes.old.items ++ version_bytes version.now) }
    ensures fits { OnOk result (is_of_its_cell version.now ≡ true → FitsVersion version.now) }
{
    let (cell, revision) = version;
    bytes.push(kind_of(cell, &revision.content))?;
    push_number(bytes, cell.row().0)?;
    bytes.push(cell.column().number())?;
    push_number(bytes, revision.start.0)?;
    push_number(bytes, revision.commit.0)?;
    push_held(bytes, cell, &revision.content)?;
    Ok(())
}

// Adds the numbers of an observer.
fn push_stats(bytes: &mut Vec<u8>, stats: &ObserverStats) -> Result<(), AllocError>
    ensures added { OnOk result (bytes.new.items ≡ bytes.old.items ++ stats_bytes stats.now) }
    ensures fits { OnOk result (FitsStats stats.now) }
{
    push_number(bytes, stats.runs)?;
    push_number(bytes, stats.nonzero)?;
    push_number(bytes, stats.conflicts)?;
    push_number(bytes, stats.asks)?;
    push_number(bytes, stats.instructions)?;
    Ok(())
}

// Adds the cells with their versions.
fn push_versions(bytes: &mut Vec<u8>, versions: &[(Cell, Revision)]) -> Result<(), AllocError>
    ensures added { OnOk result (bytes.new.items
        ≡ bytes.old.items ++ flat_map version_bytes versions.now) }
    ensures fits { OnOk result (are_of_their_cells versions.now ≡ true
        → AllByRecursion FitsVersion versions.now) }
{
    for version in versions {
        push_version(bytes, version)?;
    }
    Ok(())
}

// Adds the numbers of all observers.
fn push_all_stats(bytes: &mut Vec<u8>, all: &[ObserverStats]) -> Result<(), AllocError>
    ensures added { OnOk result (bytes.new.items
        ≡ bytes.old.items ++ flat_map stats_bytes all.now) }
    ensures fits { OnOk result (AllByRecursion FitsStats all.now) }
{
    for stats in all {
        push_stats(bytes, stats)?;
    }
    Ok(())
}

/// The bytes of the record of a snapshot. It has none where some cell holds a content that isn't one of it: data a stamp, or an
/// acknowledgment anything but the start of the transaction that wrote it.
pub fn snapshot_record(alloc: Global, snapshot: &Snapshot) -> Result<Option<Vec<u8>>, NoMemory>
    ensures bytes { IfOk result (λ r. IfSome r
        (λ v. v.items ≡ snapshot_bytes (snapshot_value snapshot.now))) }
    // So it is read again.
    ensures fits { IfOk result (λ r. IfSome r
        (λ _. FitsSnapshot (snapshot_value snapshot.now))) }
    ensures has_one { IfOk result (λ r. IsSome r
        ↔ (are_of_their_cells snapshot.now.cells.items ≡ true)) }
{
    if !are_of_their_cells(&snapshot.cells) {
        return Ok(None);
    }
    let mut bytes = Vec::new(alloc);
    bytes.extend_from_slice(b"\xffsnapshot 1\n")?;
    push_number(&mut bytes, snapshot.clock.0)?;
    push_number(&mut bytes, snapshot.stats.len() as u64)?;
    push_all_stats(&mut bytes, &snapshot.stats)?;
    push_versions(&mut bytes, &snapshot.cells)?;
    Ok(Some(bytes))
}
