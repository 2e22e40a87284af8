//! A snapshot out of the bytes of its record.
ghost use Rattle.std.specs.Prelude.{◌≡◌, ◌<◌, ◌*◌, ◌^◌, ◌++◌, ℕ, List, length, option_map, IfOk, IfSome, IfNone};
ghost use Rattle.std.specs.List.{flat_map, AllByRecursion};
ghost use Rattle.pb_base.specs.declared.cell.Cell.{Cell};
ghost use Rattle.pb_base.specs.declared.content.Revision.{Revision};
ghost use Rattle.pb_base.specs.declared.limits.TheConstants.{COLUMNS, MAX_OBSERVERS};
ghost use Rattle.pb_snapshots.specs.Snapshot.{SnapshotOf, snapshot_value, number_bytes, version_bytes, stats_bytes, snapshot_magic, snapshot_bytes, FitsVersion, FitsStats, FitsSnapshot};
ghost use Rattle.pb_snapshots.specs.Reading.{u64_at, small_at, held_at, version_at, stats_at};

use crate::snapshot::Snapshot;
use pb_base::{Cell, Column, Content, NoMemory, ObserverNo, Revision, Row, Ts};
use pb_keeper::ObserverStats;
use std::alloc::Global;

// The number of eight bytes at the front, and what follows it.
fn split_number(bytes: &[u8]) -> Option<(u64, &[u8])>
    ensures { option_map (λ p. (p.0, p.1.now)) result ≡ u64_at bytes.now }
{
    let (number, rest) = bytes.split_first_chunk::<8>()?;
    Some((u64::from_le_bytes(*number), rest))
}

// The kind of a version, and what follows it.
fn split_kind(bytes: &[u8]) -> Option<(u8, &[u8])>
    ensures { option_map (λ p. (p.0, p.1.now)) result ≡ small_at 3 bytes.now }
{
    match bytes {
        [kind, rest @ ..] if *kind < 3 => Some((*kind, rest)),
        _ => None,
    }
}

// The same of a column.
fn split_column(bytes: &[u8]) -> Option<(Column, &[u8])>
    ensures { option_map (λ p. (p.0, p.1.now)) result ≡ small_at COLUMNS bytes.now }
{
    match bytes {
        [column, rest @ ..] => Some((Column::new(*column)?, rest)),
        [] => None,
    }
}

// The same of an observer.
fn split_observer(bytes: &[u8]) -> Option<(ObserverNo, &[u8])>
    ensures { option_map (λ p. (p.0, p.1.now)) result ≡ small_at MAX_OBSERVERS bytes.now }
{
    match bytes {
        [observer, rest @ ..] => Some((ObserverNo::new(*observer)?, rest)),
        [] => None,
    }
}

// The cell of a version of this kind with its content, and what follows it.
#[tactic(auto, unfolding(crate::specs::Reading::held_at))]
fn split_held(
    kind: u8,
    row: u64,
    column: Column,
    start: u64,
    bytes: &[u8],
) -> Option<((Cell, Content), &[u8])>
    ensures { option_map (λ p. (p.0, p.1.now)) result ≡ held_at kind row column start bytes.now }
{
    match kind {
        0 => {
            let (value, rest) = bytes.split_first_chunk::<32>()?;
            Some(((Cell::Data(Row(row), column), Content::Value(*value)), rest))
        }
        1 => Some(((Cell::Data(Row(row), column), Content::Deleted), bytes)),
        _ => {
            let Some((observer, rest)) = split_observer(bytes) else {
                return None;
            };
            Some((
                (
                    Cell::Ack(observer, Row(row), column),
                    Content::Stamp(Ts(start)),
                ),
                rest,
            ))
        }
    }
}

// The version at the front with its cell, and what follows it.
#[tactic(auto, unfolding(crate::specs::Reading::version_at))]
fn split_version(bytes: &[u8]) -> Option<((Cell, Revision), &[u8])>
    ensures { option_map (λ p. (p.0, p.1.now)) result ≡ version_at bytes.now }
{
    let (kind, rest) = split_kind(bytes)?;
    let (row, rest) = split_number(rest)?;
    let Some((column, rest)) = split_column(rest) else {
        return None;
    };
    let (start, rest) = split_number(rest)?;
    let (commit, rest) = split_number(rest)?;
    let Some(((cell, content), rest)) = split_held(kind, row, column, start, rest) else {
        return None;
    };
    let revision = Revision {
        start: Ts(start),
        commit: Ts(commit),
        content,
    };
    Some(((cell, revision), rest))
}

// The numbers of an observer at the front, and what follows them.
#[tactic(auto, unfolding(crate::specs::Reading::stats_at))]
fn split_stats(bytes: &[u8]) -> Option<(ObserverStats, &[u8])>
    ensures { option_map (λ p. (p.0, p.1.now)) result ≡ stats_at bytes.now }
{
    let (runs, rest) = split_number(bytes)?;
    let (nonzero, rest) = split_number(rest)?;
    let (conflicts, rest) = split_number(rest)?;
    let (asks, rest) = split_number(rest)?;
    let (instructions, rest) = split_number(rest)?;
    let stats = ObserverStats {
        runs,
        nonzero,
        conflicts,
        asks,
        instructions,
    };
    Some((stats, rest))
}

// The numbers of so many observers at the front, and what follows them.
fn read_stats(
    alloc: Global,
    count: u64,
    bytes: &[u8],
) -> Result<Option<(Vec<ObserverStats>, &[u8])>, NoMemory>
    ensures count { IfOk result (λ r. IfSome r (λ p. length p.0.items ≡ count)) }
    ensures bytes { IfOk result (λ r. IfSome r
        (λ p. bytes.now ≡ flat_map stats_bytes p.0.items ++ p.1.now)) }
    ensures fits { IfOk result (λ r. IfSome r (λ p. AllByRecursion FitsStats p.0.items)) }
    ensures none { IfOk result (λ r. IfNone r (length bytes.now < 40 * count)) }
{
    let mut all = Vec::new(alloc);
    let mut rest = bytes;
    for _ in 0..count {
        let Some((stats, more)) = split_stats(rest) else {
            return Ok(None);
        };
        all.push(stats)?;
        rest = more;
    }
    Ok(Some((all, rest)))
}

// The versions of which the bytes are all.
fn read_versions(alloc: Global, bytes: &[u8]) -> Result<Option<Vec<(Cell, Revision)>>, NoMemory>
    ensures bytes { IfOk result (λ r. IfSome r
        (λ v. bytes.now ≡ flat_map version_bytes v.items)) }
    ensures fits { IfOk result (λ r. IfSome r (λ v. AllByRecursion FitsVersion v.items)) }
    ensures none { IfOk result (λ r. IfNone r ((xs : List (Cell × Revision))
        → AllByRecursion FitsVersion xs → bytes.now ≡ flat_map version_bytes xs → ⊥)) }
{
    let mut versions = Vec::new(alloc);
    let mut rest = bytes;
    for _ in 0..bytes.len() {
        if rest.is_empty() {
            break;
        }
        let Some((version, more)) = split_version(rest) else {
            return Ok(None);
        };
        versions.push(version)?;
        rest = more;
    }
    Ok(Some(versions))
}

// The clock and the number of the observers, with which a record begins, and what follows them.
fn split_head(bytes: &[u8]) -> Option<(u64, u64, &[u8])>
    ensures some { IfSome result (λ p. bytes.now
        ≡ snapshot_magic ++ (number_bytes p.0 ++ (number_bytes p.1 ++ p.2.now))) }
    ensures within { IfSome result (λ p. (p.0 < 2 ^ 64) × (p.1 < 2 ^ 64)) }
    ensures none { IfNone result ((clock count : ℕ) (rest : List ℕ) → bytes.now
        ≡ snapshot_magic ++ (number_bytes clock ++ (number_bytes count ++ rest)) → ⊥) }
{
    let rest = bytes.strip_prefix(b"\xffsnapshot 1\n")?;
    let (clock, rest) = split_number(rest)?;
    let (count, rest) = split_number(rest)?;
    Some((clock, count, rest))
}

/// The snapshot of which the bytes are the record, if they are one of any snapshot.
pub fn read_snapshot(alloc: Global, bytes: &[u8]) -> Result<Option<Snapshot>, NoMemory>
    ensures bytes { IfOk result (λ r. IfSome r
        (λ s. bytes.now ≡ snapshot_bytes (snapshot_value s))) }
    ensures fits { IfOk result (λ r. IfSome r (λ s. FitsSnapshot (snapshot_value s))) }
    ensures none { IfOk result (λ r. IfNone r ((s : SnapshotOf)
        → FitsSnapshot s → bytes.now ≡ snapshot_bytes s → ⊥)) }
{
    let Some((clock, count, rest)) = split_head(bytes) else {
        return Ok(None);
    };
    let Some((stats, rest)) = read_stats(alloc, count, rest)? else {
        return Ok(None);
    };
    let Some(cells) = read_versions(alloc, rest)? else {
        return Ok(None);
    };
    Ok(Some(Snapshot {
        clock: Ts(clock),
        stats,
        cells,
    }))
}
