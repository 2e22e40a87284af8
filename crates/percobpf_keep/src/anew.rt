//! A log that is compacted before any line, also for another manifest than its own.
ghost use Rattle.std.specs.Prelude.{◌≡◌, ◌≤◌, ◌<◌, ◌+◌, ◌-◌, ◌++◌, ◌^◌, ℕ, List, Some, true, length, slice_get, string_bytes, IfNone, IfOk, IfSome, Ok, OnOk, IsTrue};
ghost use Rattle.sqlite_disk.specs.Disk.{Only};
ghost use Rattle.pb_base.specs.declared.limits.TheConstants.{MAX_OBSERVERS};
ghost use Rattle.pb_generations.specs.Chosen.{AreChosen};
ghost use Rattle.pb_keeper.specs.Keeps.{opened_table};
ghost use Rattle.pb_keeper.specs.Stats.{kept_table};
ghost use Rattle.pb_accepted.specs.Observers.{ObserverOf};
ghost use Rattle.pb_keeper.specs.Choosing.{IsOneOf, IsSplit};
ghost use Rattle.pb_keep.specs.Waits.{IsWaiting};
ghost use Rattle.pb_registry.specs.Judging.{ReadsManifest};

use crate::compact::compact;
use crate::failure::{Failure, FileState};
use crate::head::{Head, limit_of, next_limit, read_head};
use crate::names::{Location, open_at};
use crate::printed::Printed;
use crate::table::{Kept, close, new_keeper, new_log, new_state, observers_of, open_log};
use pb_accepted::Observer;
use pb_keep::Keeper;
use pb_keeper::{places_of, split_known};
use pb_memtablet::ListTablet;
use sqlite_disk::{Disk, Unknown};
use sqlite_std_file::FileFrom;
use std::alloc::Global;

// At which places of the table's observers these stand.
fn places_in<D: Disk + Drop>(
    alloc: Global,
    keeper: &Keeper<ListTablet, D>,
    observers: &[Observer],
    location: &Location,
) -> Result<Vec<usize>, Failure>
    ensures { IfOk result (λ v. AreChosen v.items keeper.now.state.observers observers.now) }
{
    match places_of(alloc, keeper.state.observers(), observers)? {
        Some(places) => Ok(places),
        None => Err(Failure::of_file(alloc, location.log.as_str(), FileState::SameObservers)),
    }
}

// Goes on with these observers, which the table has, and then with others. Returns how many runs were committed
// while these caught up.
fn change_observers<D: Disk + Drop>(
    alloc: Global,
    keeper: &mut Keeper<ListTablet, D>,
    staying: Vec<Observer>,
    added: Vec<Observer>,
    location: &Location,
) -> Result<u64, Failure>
    requires few { length staying.items + length added.items ≤ MAX_OBSERVERS }
    requires new { (o : ObserverOf) → IsOneOf added.items o
        → IsOneOf keeper.old.state.observers o → ⊥ }
    ensures log { keeper.new.log ≡ keeper.old.log }
    ensures waiting { keeper.new.waiting ≡ keeper.old.waiting }
    ensures observers { OnOk result
        (keeper.new.state.observers ≡ staying.items ++ added.items) }
{
    let places = places_in(alloc, keeper, &staying, location)?;
    let state = new_state(alloc, staying)?;
    Ok(keeper.change_observers(alloc, state, &places, added)?)
}

// What became of a table's observers.
#[derive(Clone, Copy)]
struct ObserverCounts {
    // How many came.
    added: usize,
    // How many runs were committed while these caught up.
    runs: u64,
    // How many are gone.
    gone: usize,
}

// Goes on with those of these observers that the table has, and then with the others, which catch up.
fn change_for<D: Disk + Drop>(
    alloc: Global,
    keeper: &mut Keeper<ListTablet, D>,
    observers: Vec<Observer>,
    location: &Location,
) -> Result<ObserverCounts, Failure>
    requires few { length observers.items ≤ MAX_OBSERVERS }
    ensures log { keeper.new.log ≡ keeper.old.log }
    ensures waiting { keeper.new.waiting ≡ keeper.old.waiting }
    ensures observers { IfOk result (λ counts. (known others : List ObserverOf)
        × IsSplit keeper.old.state.observers observers.items known others
        × (keeper.new.state.observers ≡ known ++ others)
        × (counts.added ≡ length others)
        × (counts.gone ≡ length keeper.old.state.observers - length known)) }
{
    let before = keeper.state.observers().len();
    let (staying, others) = split_known(alloc, keeper.state.observers(), observers)?;
    let (added, gone) = (others.len(), before.saturating_sub(staying.len()));
    let runs = change_observers(alloc, keeper, staying, others, location)?;
    Ok(ObserverCounts { added, runs, gone })
}

// The same, and prints what became of them.
fn observe_others<D: Disk + Drop>(
    rt: &HostRuntime,
    keeper: &mut Keeper<ListTablet, D>,
    observers: Vec<Observer>,
    location: &Location,
) -> Result<(), Failure>
    requires few { length observers.items ≤ MAX_OBSERVERS }
    ensures log { keeper.new.log ≡ keeper.old.log }
    ensures waiting { keeper.new.waiting ≡ keeper.old.waiting }
    ensures observers { OnOk result ((known others : List ObserverOf)
        × IsSplit keeper.old.state.observers observers.items known others
        × (keeper.new.state.observers ≡ known ++ others)) }
{
    let counts = change_for(rt.alloc(), keeper, observers, location)?;
    let line = Printed::Changed(counts.added, counts.runs, counts.gone);
    print!(rt; "{line}")?;
    Ok(())
}

// Whether these are the places of all observers of a table that has so many, in their order.
fn are_all_in_order(places: &[usize], many: usize) -> bool
    ensures all { result ≡ true → length places.now ≡ many }
    ensures order { result ≡ true → (n p : ℕ) → slice_get places.now n ≡ Some p → p ≡ n }
{
    if places.len() != many {
        return false;
    }
    for (number, place) in places.iter().enumerate() {
        if *place != number {
            return false;
        }
    }
    true
}

// Brings the observers of the table into the order of this manifest. It has the same ones, since others were added before.
fn order_observers<D: Disk + Drop>(
    alloc: Global,
    keeper: &mut Keeper<ListTablet, D>,
    manifest: &str,
    location: &Location,
) -> Result<(), Failure>
    ensures log { keeper.new.log ≡ keeper.old.log }
    ensures waiting { keeper.new.waiting ≡ keeper.old.waiting }
    ensures manifest { OnOk result
        (ReadsManifest manifest.now (Ok keeper.new.state.observers)) }
{
    let observers = observers_of(alloc, manifest)?;
    let places = places_in(alloc, keeper, &observers, location)?;
    if are_all_in_order(&places, keeper.state.observers().len()) {
        return Ok(());
    }
    change_observers(alloc, keeper, observers, Vec::new(alloc), location)?;
    Ok(())
}

// Goes on with the observers of this manifest, if it is another than the one whose observers the table has.
fn observe_manifest<D: Disk + Drop>(
    rt: &HostRuntime,
    keeper: &mut Keeper<ListTablet, D>,
    manifest: &str,
    observers: Option<Vec<Observer>>,
    location: &Location,
) -> Result<(), Failure>
    requires few { IfSome observers (λ v. length v.items ≤ MAX_OBSERVERS) }
    requires same { IfNone observers
        (ReadsManifest manifest.now (Ok keeper.old.state.observers)) }
    ensures log { keeper.new.log ≡ keeper.old.log }
    ensures waiting { keeper.new.waiting ≡ keeper.old.waiting }
    ensures manifest { OnOk result
        (ReadsManifest manifest.now (Ok keeper.new.state.observers)) }
{
    match observers {
        Some(observers) => {
            observe_others(rt, keeper, observers, location)?;
            order_observers(rt.alloc(), keeper, manifest, location)
        }
        None => Ok(()),
    }
}

// Opens the log with its own manifest, goes on with the observers of this one, if it is another, and compacts it for this
// manifest and this limit.
fn open_and_compact(
    rt: &HostRuntime,
    keeper: &mut Kept,
    own: &str,
    limit: u64,
    manifest: &str,
    observers: Option<Vec<Observer>>,
    location: &mut Location,
) -> Result<(), Failure>
    requires own { length own.now < 2 ^ 30 }
    requires short { length manifest.now < 2 ^ 30 }
    requires few { IfSome observers (λ v. length v.items ≤ MAX_OBSERVERS) }
    requires usable { IsTrue (⟦<FileFrom<Unknown> as Disk>⟧.is_usable keeper.old.log.disk) }
    requires restarted { Only (⟦<FileFrom<Unknown> as Disk>⟧.seen keeper.old.log.disk)
        (⟦<FileFrom<Unknown> as Disk>⟧.may_leave keeper.old.log.disk) }
    requires opened { kept_table keeper.old.state keeper.old.stats.items
        ≡ opened_table keeper.old.state.observers }
    requires waiting { IsWaiting keeper.old.waiting }
    requires own_manifest { ReadsManifest own.now (Ok keeper.old.state.observers) }
    requires same { IfNone observers (own.now ≡ manifest.now) }
    ensures limit { OnOk result (keeper.new.limit ≡ limit) }
    ensures manifest { OnOk result
        (ReadsManifest manifest.now (Ok keeper.new.state.observers)) }
{
    let found = open_log(rt.alloc(), keeper, own)?;
    print!(rt; "{}", Printed::Opened(found))?;
    observe_manifest(rt, keeper, manifest, observers, location)?;
    match compact(rt, keeper, limit, manifest, location)? {
        Ok(versions) => {
            print!(rt; "{}", Printed::Compacted(versions))?;
            Ok(())
        }
        Err(why) => Err(why.into()),
    }
}

// The same, from its file on.
fn compact_file(
    rt: &HostRuntime,
    disk: FileFrom<Unknown>,
    own_limit: u64,
    own: &str,
    limit: u64,
    manifest: &str,
    observers: Option<Vec<Observer>>,
    location: &mut Location,
) -> Result<(), Failure>
    requires own { length own.now < 2 ^ 30 }
    requires short { length manifest.now < 2 ^ 30 }
    requires few { IfSome observers (λ v. length v.items ≤ MAX_OBSERVERS) }
    requires usable { IsTrue (⟦<FileFrom<Unknown> as Disk>⟧.is_usable disk) }
    requires restarted { Only (⟦<FileFrom<Unknown> as Disk>⟧.seen disk)
        (⟦<FileFrom<Unknown> as Disk>⟧.may_leave disk) }
    requires same { IfNone observers (own.now ≡ manifest.now) }
{
    let mut keeper = new_keeper(rt.alloc(), own, own_limit, disk)?;
    let done = open_and_compact(rt, &mut keeper, own, limit, manifest, observers, location);
    close(keeper);
    done
}

// Compacts a log of another manifest, of which this is the head, for this one with its observers.
fn compact_other(
    rt: &HostRuntime,
    disk: FileFrom<Unknown>,
    own: &Head,
    manifest: &str,
    observers: Vec<Observer>,
    wanted: Option<u64>,
    location: &mut Location,
) -> Result<(), Failure>
    requires own { length (string_bytes own.now.manifest) < 2 ^ 30 }
    requires short { length manifest.now < 2 ^ 30 }
    requires few { length observers.items ≤ MAX_OBSERVERS }
    requires usable { IsTrue (⟦<FileFrom<Unknown> as Disk>⟧.is_usable disk) }
    requires restarted { Only (⟦<FileFrom<Unknown> as Disk>⟧.seen disk)
        (⟦<FileFrom<Unknown> as Disk>⟧.may_leave disk) }
{
    compact_file(
        rt,
        disk,
        own.limit,
        own.manifest.as_str(),
        next_limit(own.limit, wanted),
        manifest,
        Some(observers),
        location,
    )
}

// Compacts the log in this file, of whatever manifest, for this one with its observers.
fn compact_at(
    rt: &HostRuntime,
    disk: FileFrom<Unknown>,
    manifest: &str,
    observers: Vec<Observer>,
    wanted: Option<u64>,
    location: &mut Location,
) -> Result<(), Failure>
    requires short { length manifest.now < 2 ^ 30 }
    requires few { length observers.items ≤ MAX_OBSERVERS }
    requires usable { IsTrue (⟦<FileFrom<Unknown> as Disk>⟧.is_usable disk) }
    requires restarted { Only (⟦<FileFrom<Unknown> as Disk>⟧.seen disk)
        (⟦<FileFrom<Unknown> as Disk>⟧.may_leave disk) }
{
    let mut log = new_log(disk);
    match read_head(rt.alloc(), &mut log, location)? {
        Some(head) if head.manifest.as_str() != manifest => {
            compact_other(rt, log.disk, &head, manifest, observers, wanted, location)
        }
        own => {
            let limit = limit_of(rt.alloc(), &own, None, location)?;
            let next = next_limit(limit, wanted);
            compact_file(
                rt, log.disk, limit, manifest, next, manifest, None, location,
            )
        }
    }
}

/// Puts a log of this manifest that begins with a snapshot of the table in the place of this one, and prints how many versions it
/// has. The log's own manifest may have other observers: those of both keep what they have acknowledged. The new log has the
/// limit of entries that is wanted, if one is, or that of the old one. The log isn't opened for a manifest that is refused.
pub(crate) fn compact_alone(
    rt: &HostRuntime,
    manifest: &str,
    path: &str,
    wanted: Option<u64>,
) -> Result<(), Failure>
    requires short { length manifest.now < 2 ^ 30 }
{
    let observers = observers_of(rt.alloc(), manifest)?;
    let (mut location, db) = open_at(rt, path)?;
    compact_at(rt, db, manifest, observers, wanted, &mut location)
}
