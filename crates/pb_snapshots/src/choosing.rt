//! What is chosen of a snapshot for other observers: their acknowledgments and stats under their new numbers, and all data.
ghost use Rattle.std.specs.Prelude.{◌≡◌, ◌<◌, ◌≤◌, ◌∷◌, IfOk, IfSome, OnOk, List, length, map};
ghost use Rattle.std.specs.List.Sorted.{IsStrictlySortedBy};
ghost use Rattle.pb_base.specs.declared.cell.Cell.{Cell};
ghost use Rattle.pb_base.specs.declared.content.Revision.{Revision};
ghost use Rattle.pb_base.specs.declared.limits.TheConstants.{MAX_OBSERVERS};
ghost use Rattle.pb_history.specs.History.{Has};
ghost use Rattle.pb_generations.specs.Chosen.{chosen_cell, place_among};
ghost use Rattle.pb_keeper.specs.Stats.{chosen_stats};
ghost use Rattle.pb_snapshots.specs.Chosen.{IsChosenFrom};
ghost use Rattle.pb_snapshots.specs.ChosenWalks.{HaveOneOfEachCommit, AreChosenVersions, HasChosen};
ghost use Rattle.pb_snapshots.specs.Snapshot.{snapshot_value};
ghost use Rattle.pb_snapshots.specs.VersionWalks.{commit_cmp, commit_of_version, version_listed};

use crate::snapshot::Snapshot;
use crate::taking::listed;
use pb_base::{Cell, NoMemory, ObserverNo, Revision, Ts};
use pb_keeper::{NO_RUNS, ObserverStats};
use std::alloc::{AllocError, Global};
use std::collections::BTreeMap;

// At which place the list has a number, the first if it has it at some.
fn place_among(places: &[usize], number: usize) -> Option<usize>
    ensures value { result ≡ place_among places.now number }
    ensures few { IfSome result (λ n. n < length places.now) }
{
    for (place, other) in places.iter().enumerate() {
        if *other == number {
            return Some(place);
        }
    }
    None
}

// A cell of the table as it will be: an acknowledgment of one that stays has its new number, and others have no cell there.
fn chosen_cell(places: &[usize], cell: &Cell) -> Option<Cell>
    requires { length places.now ≤ MAX_OBSERVERS }
    ensures { result ≡ chosen_cell places.now cell.now }
{
    let Cell::Ack(observer, row, column) = cell else {
        return Some(*cell);
    };
    let place = place_among(places, usize::from(observer.number()))?;
    match ObserverNo::new(place as u8) {
        Some(number) => Some(Cell::Ack(number, *row, *column)),
        // A place is below 32, as many as a table may have, so that it is a number.
        None => unreachable!(),
    }
}

// Notes a version, if its cell will be there.
fn note_chosen(
    versions: &mut BTreeMap<(Ts, Cell), Revision>,
    places: &[usize],
    version: &(Cell, Revision),
) -> Result<(), NoMemory>
    requires { length places.now ≤ MAX_OBSERVERS }
    ensures { OnOk result ((cells rest : List (Cell × Revision)) → HaveOneOfEachCommit cells
        → Has cells version.now → HasChosen places.now cells (version.now ∷ rest) versions.old
        → HasChosen places.now cells rest versions.new) }
{
    let Some(cell) = chosen_cell(places, &version.0) else {
        return Ok(());
    };
    versions.insert((version.1.commit, cell), version.1)?;
    Ok(())
}

// The versions that are chosen of these. They are kept by commits and cells, in which order a snapshot lists them.
fn chosen_versions(
    alloc: Global,
    cells: &[(Cell, Revision)],
    places: &[usize],
) -> Result<BTreeMap<(Ts, Cell), Revision>, NoMemory>
    requires rising { IsStrictlySortedBy commit_cmp (map commit_of_version cells.now) }
    requires few { length places.now ≤ MAX_OBSERVERS }
    ensures { IfOk result (λ m. AreChosenVersions places.now cells.now
        (map version_listed m.entries)) }
{
    let mut versions = BTreeMap::new(alloc);
    for version in cells {
        note_chosen(&mut versions, places, version)?;
    }
    Ok(versions)
}

// The numbers of the observers at these places.
fn chosen_stats(
    alloc: Global,
    stats: &[ObserverStats],
    places: &[usize],
) -> Result<Vec<ObserverStats>, AllocError>
    ensures { IfOk result (λ v. v.items ≡ chosen_stats places.now stats.now) }
{
    let mut chosen = Vec::with_capacity(alloc, places.len())?;
    for place in places {
        chosen.push(*stats.get(*place).unwrap_or(&NO_RUNS))?;
    }
    Ok(chosen)
}

/// What is chosen of a snapshot for the observers at these places of its list, in this order: the acknowledgments of those that
/// stay under their new numbers, all data, and their stats. The acknowledgments of others aren't kept. As those of the
/// snapshot, its versions come by rising commits, and by rising cells within one commit.
///
/// Of the snapshot of a kept table a state goes on with them ([`chosen_begin`](crate::chosen_begin)).
pub fn choose_observers(
    alloc: Global,
    snapshot: &Snapshot,
    places: &[usize],
) -> Result<Snapshot, NoMemory>
    requires rising { IsStrictlySortedBy commit_cmp
        (map commit_of_version snapshot.now.cells.items) }
    requires few { length places.now ≤ MAX_OBSERVERS }
    ensures chosen { IfOk result (λ u. IsChosenFrom places.now (snapshot_value snapshot.now)
        (snapshot_value u)) }
    ensures rising { IfOk result (λ u. IsStrictlySortedBy commit_cmp
        (map commit_of_version u.cells.items)) }
{
    let versions = chosen_versions(alloc, &snapshot.cells, places)?;
    let cells = listed(alloc, &versions)?;
    let stats = chosen_stats(alloc, &snapshot.stats, places)?;
    Ok(Snapshot {
        clock: snapshot.clock,
        stats,
        cells,
    })
}
