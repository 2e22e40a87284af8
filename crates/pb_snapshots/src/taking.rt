//! How a snapshot is taken: the newest version of each cell, and all versions of the cells that an observer isn't up to date on, in the order
//! in which a state takes them over.
ghost use Rattle.std.specs.Prelude.{◌≡◌, ◌∷◌, IfOk, OnOk, List, MatchBool, MatchOption, map};
ghost use Rattle.std.specs.List.Sorted.{IsStrictlySortedBy};
ghost use Rattle.pb_base.specs.declared.content.Revision.{Revision};
ghost use Rattle.pb_store.specs.declared.slot.Item.{Item};
ghost use Rattle.pb_store.specs.declared.slot.Slot.{Slot};
ghost use Rattle.pb_steps.specs.Readings.{data_at};
ghost use Rattle.pb_keeper.specs.Stats.{kept_table};
ghost use Rattle.pb_snapshots.specs.Snapshot.{snapshot_value};
ghost use Rattle.pb_snapshots.specs.Taken.{IsLastRecord, IsSnapshotTaken};
ghost use Rattle.pb_snapshots.specs.VersionWalks.{AreTakenVersions, HasTaken, IsTakenIn, StandsIn};
ghost use Rattle.pb_snapshots.specs.VersionWalks.{commit_cmp, commit_of_version, version_listed};

use crate::snapshot::Snapshot;
use pb_base::{Cell, Content, NoMemory, Revision, Ts};
use pb_keeper::ObserverStats;
use pb_state::State;
use pb_store::{Item, Slot, Sort, Table, Tablet};
use std::alloc::{AllocError, Global};
use std::collections::BTreeMap;

// What the transaction of this start wrote to the cell.
fn content_at<T: Tablet>(table: &Table<T>, cell: &Cell, start: Ts) -> Option<Content>
    ensures { result ≡ data_at table.now.contents.entries cell.now start.0 }
{
    let slot = Slot {
        cell: *cell,
        sort: Sort::Data,
        ts: start,
    };
    match table.get(slot) {
        Some(Item::Data(content)) => Some(content),
        _ => None,
    }
}

// The version that a slot has the record of, if its commit isn't above the last. In every state a write record has its data, but
// callers of `State` don't know that: a record without them makes no version.
fn version_in<T: Tablet>(table: &Table<T>, last: Ts, slot: &Slot) -> Option<Revision>
    ensures { MatchOption result
        ((v : Revision) → StandsIn table.now.contents.entries last.0 slot.now v → ⊥)
        (StandsIn table.now.contents.entries last.0 slot.now) }
{
    if slot.sort != Sort::Write || slot.ts > last {
        return None;
    }
    let Some(Item::Write(start)) = table.get(*slot) else {
        return None;
    };
    let content = content_at(table, &slot.cell, start)?;
    Some(Revision {
        start,
        commit: slot.ts,
        content,
    })
}

// Whether no record of a cell has a later commit, up to the last.
fn is_last<T: Tablet>(table: &Table<T>, cell: &Cell, commit: Ts, last: Ts) -> bool
    ensures { MatchBool result
        (IsLastRecord table.now.contents.entries last.0 cell.now commit.0)
        (IsLastRecord table.now.contents.entries last.0 cell.now commit.0 → ⊥) }
{
    match table.newest(*cell, Sort::Write, last) {
        Some((newest, _)) => newest <= commit,
        None => true,
    }
}

// The version that a slot has the record of, if a snapshot takes it.
fn taken_in<T: Tablet>(state: &State<T>, slot: &Slot) -> Option<Revision>
    ensures { MatchOption result
        ((v : Revision) → IsTakenIn state.now slot.now v → ⊥)
        (IsTakenIn state.now slot.now) }
{
    let version = version_in(state.table(), state.clock(), slot)?;
    if is_last(state.table(), &slot.cell, slot.ts, state.clock()) || state.is_behind(&slot.cell) {
        Some(version)
    } else {
        None
    }
}

// Notes the version that a slot has the record of, if it is taken.
fn note_version<T: Tablet>(
    versions: &mut BTreeMap<(Ts, Cell), Revision>,
    state: &State<T>,
    slot: &Slot,
) -> Result<(), NoMemory>
    ensures { OnOk result ((item : Item) (rest : List (Slot × Item))
        → HasTaken state.now ((slot.now, item) ∷ rest) versions.old
        → HasTaken state.now rest versions.new) }
{
    let Some(version) = taken_in(state, slot) else {
        return Ok(());
    };
    versions.insert((version.commit, slot.cell), version)?;
    Ok(())
}

// The versions that a snapshot takes, in one walk over the entries. They are kept by commits and cells, in which order a snapshot
// lists them.
fn taken_versions<T: Tablet>(
    alloc: Global,
    state: &State<T>,
) -> Result<BTreeMap<(Ts, Cell), Revision>, NoMemory>
    ensures { IfOk result (λ m. AreTakenVersions state.now (map version_listed m.entries)) }
{
    let mut versions = BTreeMap::new(alloc);
    let mut after = None;
    while let Some((slot, _)) = state.table().next_entry(after) {
        note_version(&mut versions, state, &slot)?;
        after = Some(slot);
    }
    Ok(versions)
}

// The versions in a list.
pub(crate) fn listed(
    alloc: Global,
    versions: &BTreeMap<(Ts, Cell), Revision>,
) -> Result<Vec<(Cell, Revision)>, AllocError>
    ensures { IfOk result (λ v. v.items ≡ map version_listed versions.now.entries) }
{
    let mut cells = Vec::with_capacity(alloc, versions.len())?;
    for (key, version) in versions {
        cells.push((key.1, *version))?;
    }
    Ok(cells)
}

/// A snapshot of a table, with what the runs of its observers did. Its versions come by rising commits, and by rising cells
/// within one commit, as a state takes them over.
///
/// It has no locks and no marks, so that it stands for a table without locks alone, which gets a mark on each cell that an observer
/// isn't up to date on ([`snapshots_begin`](crate::snapshots_begin)).
pub fn take_snapshot<T: Tablet>(
    alloc: Global,
    state: &State<T>,
    stats: &[ObserverStats],
) -> Result<Snapshot, NoMemory>
    ensures taken { IfOk result (λ s. IsSnapshotTaken (kept_table state.now stats.now)
        (snapshot_value s)) }
    ensures rising { IfOk result (λ s. IsStrictlySortedBy commit_cmp
        (map commit_of_version s.cells.items)) }
{
    let versions = taken_versions(alloc, state)?;
    let cells = listed(alloc, &versions)?;
    let stats = stats.to_vec(alloc)?;
    Ok(Snapshot {
        clock: state.clock(),
        stats,
        cells,
    })
}
