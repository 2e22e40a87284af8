//! The table that is kept, from the manifest's text to the changes of its log.
ghost use Rattle.std.specs.Prelude.{◌≡◌, ◌≤◌, ◌<◌, ◌+◌, ◌^◌, ℕ, List, Option, length, string_bytes, take, IfErr, IfOk, IfSome, Ok, OnOk, IsTrue};
ghost use Rattle.pb_base.specs.declared.limits.TheConstants.{MAX_OBSERVERS};
ghost use Rattle.pb_store.specs.Contents.{nothing};
ghost use Rattle.pb_steps.specs.State.{opening};
ghost use Rattle.pb_keeper.specs.Keeps.{opened_table};
ghost use Rattle.pb_keeper.specs.Stats.{kept_table};
ghost use Rattle.pb_keep.specs.Conversations.{keeper_view};
ghost use Rattle.pb_keep.specs.Opened.{IsOpenedLog};
ghost use Rattle.pb_keep.specs.Waits.{IsWaiting};
ghost use Rattle.pb_registry.specs.Judging.{ReadsManifest};
ghost use Rattle.sqlite_disk.specs.Disk.{Only};
ghost use Rattle.percobpf_keep.specs.Failures.{IsOfManifestBytes};
ghost use Rattle.percobpf_keep.specs.declared.failure.Failure.TheVariants.{LargeManifest};

use crate::failure::{Failure, FileState};
use crate::file::named;
use pb_accepted::Observer;
use pb_base::{MAX_OBSERVERS, Row, Ts};
use pb_keep::Keeper;
use pb_keeper::{ObserverStats, no_stats};
use pb_log::Log;
use pb_memtablet::ListTablet;
use pb_registry::Registry;
use pb_state::State;
use pb_store::Table;
use sqlite_disk::{Disk, Unknown};
use sqlite_std_file::FileFrom;
use std::alloc::Global;
use std::fs;
use std::io::{self, Read};

/// A table that is kept in a file of which nothing is supposed.
pub(crate) type Kept = Keeper<ListTablet, FileFrom<Unknown>>;

/// A log in such a file.
pub(crate) type KeptLog = Log<FileFrom<Unknown>>;

// The most bytes of a manifest, which the first record of a log has.
const MAX_MANIFEST: usize = 16_777_216;

// The bytes of a reader, up to one more than a manifest may have: the one more shows that there are too many.
fn read_first<R: Read + Drop>(alloc: Global, reader: R) -> io::Result<Vec<u8>>
    ensures { IfOk result (λ v. IfSome (R.remaining reader) (λ all.
        v.items ≡ take (2 ^ 24 + 1) all)) }
{
    let mut bytes = Vec::new(alloc);
    reader
        .take(MAX_MANIFEST as u64 + 1)
        .read_to_end(&mut bytes)?;
    Ok(bytes)
}

// The same of the file of this name.
fn first_bytes(rt: &HostRuntime, path: &str) -> io::Result<Vec<u8>> {
    read_first(rt.alloc(), fs::open(rt, path)?)
}

/// The text of a manifest, unless it is too large.
pub(crate) fn short_text(text: String) -> Result<String, Failure>
    ensures short { IfOk result (λ t. length (string_bytes t) < 2 ^ 30) }
    ensures same { IfOk result (λ t. (t ≡ text) × (length (string_bytes text) ≤ 2 ^ 24)) }
    ensures large { IfErr result (λ e. (e ≡ LargeManifest)
        × (2 ^ 24 < length (string_bytes text))) }
{
    if text.len() > MAX_MANIFEST {
        return Err(Failure::LargeManifest);
    }
    Ok(text)
}

// The text of a manifest that was read from the file of this name, of which these are the bytes.
fn manifest_text(alloc: Global, path: &str, bytes: Vec<u8>) -> Result<String, Failure>
    ensures text { IfOk result (λ t. string_bytes t ≡ bytes.items) }
    ensures short { IfOk result (λ t. length (string_bytes t) < 2 ^ 30) }
    ensures fault { IfErr result (IsOfManifestBytes path.now bytes.items) }
{
    if bytes.len() > MAX_MANIFEST {
        return Err(Failure::LargeManifest);
    }
    match String::from_utf8(bytes) {
        Ok(text) => Ok(text),
        Err(_) => Err(Failure::of_file(alloc, path, FileState::NotText)),
    }
}

/// The text of the manifest in the file of this name.
pub(crate) fn manifest_at(rt: &HostRuntime, path: &str) -> Result<String, Failure>
    ensures short { IfOk result (λ t. length (string_bytes t) < 2 ^ 30) }
{
    let bytes = named(rt.alloc(), path, first_bytes(rt, path))?;
    manifest_text(rt.alloc(), path, bytes)
}

/// The observers of a manifest. That they are few enough for a table is promised by `Registry::from_json`.
pub(crate) fn observers_of(alloc: Global, manifest: &str) -> Result<Vec<Observer>, Failure>
    ensures few { IfOk result (λ v. length v.items ≤ MAX_OBSERVERS) }
    ensures read { IfOk result (λ v. ReadsManifest manifest.now (Ok v.items)) }
{
    match Registry::from_json(alloc, manifest)?.into_observers(alloc) {
        Ok(observers) => Ok(observers),
        Err((_registry, refused)) => Err(refused.into()),
    }
}

// An empty table of one tablet, since none is swapped.
fn table(alloc: Global) -> Result<Table<ListTablet>, Failure>
    ensures { IfOk result (λ t. t.contents ≡ nothing) }
{
    let mut tablets = Vec::new(alloc);
    tablets.push((Row(0), ListTablet::new(alloc)))?;
    match Table::new(tablets) {
        Ok(table) => Ok(table),
        Err((_tablets, refusal)) => Err(refusal.into()),
    }
}

/// A state with no entry, with these observers.
pub(crate) fn new_state(
    alloc: Global,
    observers: Vec<Observer>,
) -> Result<State<ListTablet>, Failure>
    requires few { length observers.items ≤ MAX_OBSERVERS }
    ensures { IfOk result (λ s. s ≡ opening observers.items 1 0) }
{
    Ok(State::new(alloc, table(alloc)?, observers, 1, Ts(0)))
}

/// The log of a file, which isn't opened yet.
pub(crate) fn new_log(disk: FileFrom<Unknown>) -> KeptLog
    ensures { result.disk ≡ disk }
{
    Log::new(disk)
}

/// Ends a table, and closes its file.
pub(crate) fn close(keeper: Kept) {
    keeper.close();
}

// A state with no entry, with these observers, and their stats.
fn table_of(
    alloc: Global,
    observers: Vec<Observer>,
) -> Result<(State<ListTablet>, Vec<ObserverStats>), Failure>
    requires few { length observers.items ≤ MAX_OBSERVERS }
    ensures opened { IfOk result (λ t. kept_table t.0 t.1.items ≡ opened_table t.0.observers) }
    ensures observers { IfOk result (λ t. t.0.observers ≡ observers.items) }
{
    let stats = no_stats(alloc, observers.len())?;
    Ok((new_state(alloc, observers)?, stats))
}

/// The same with the observers of this manifest.
pub(crate) fn new_table(
    alloc: Global,
    manifest: &str,
) -> Result<(State<ListTablet>, Vec<ObserverStats>), Failure>
    ensures opened { IfOk result (λ t. kept_table t.0 t.1.items ≡ opened_table t.0.observers) }
    ensures manifest { IfOk result (λ t. ReadsManifest manifest.now (Ok t.0.observers)) }
{
    table_of(alloc, observers_of(alloc, manifest)?)
}

/// A keeper of a table with no entry, with these observers and this limit of entries, over this file.
pub(crate) fn keeper_of(
    alloc: Global,
    observers: Vec<Observer>,
    limit: u64,
    disk: FileFrom<Unknown>,
) -> Result<Kept, Failure>
    requires few { length observers.items ≤ MAX_OBSERVERS }
    ensures disk { IfOk result (λ k. k.log.disk ≡ disk) }
    ensures opened { IfOk result (λ k. kept_table k.state k.stats.items
        ≡ opened_table k.state.observers) }
    ensures observers { IfOk result (λ k. k.state.observers ≡ observers.items) }
    ensures waiting { IfOk result (λ k. IsWaiting k.waiting) }
    ensures limit { IfOk result (λ k. k.limit ≡ limit) }
{
    let (state, stats) = table_of(alloc, observers)?;
    Ok(Keeper::new(alloc, disk, state, stats, limit))
}

/// The same with the observers of this manifest.
pub(crate) fn new_keeper(
    alloc: Global,
    manifest: &str,
    limit: u64,
    disk: FileFrom<Unknown>,
) -> Result<Kept, Failure>
    ensures disk { IfOk result (λ k. k.log.disk ≡ disk) }
    ensures opened { IfOk result (λ k. kept_table k.state k.stats.items
        ≡ opened_table k.state.observers) }
    ensures manifest { IfOk result (λ k. ReadsManifest manifest.now (Ok k.state.observers)) }
    ensures waiting { IfOk result (λ k. IsWaiting k.waiting) }
    ensures limit { IfOk result (λ k. k.limit ≡ limit) }
{
    let observers = observers_of(alloc, manifest)?;
    let keeper = keeper_of(alloc, observers, limit, disk)?;
    Ok(keeper)
}

/// Opens the log of this manifest, whose observers the table has, and returns how many changes it has.
pub(crate) fn open_log<D: Disk + Drop>(
    alloc: Global,
    keeper: &mut Keeper<ListTablet, D>,
    manifest: &str,
) -> Result<u64, Failure>
    requires usable { IsTrue (D.is_usable keeper.old.log.disk) }
    requires restarted { Only (D.seen keeper.old.log.disk) (D.may_leave keeper.old.log.disk) }
    requires short { length manifest.now < 2 ^ 30 }
    requires opened { kept_table keeper.old.state keeper.old.stats.items
        ≡ opened_table keeper.old.state.observers }
    requires manifest { ReadsManifest manifest.now (Ok keeper.old.state.observers) }
    ensures usable { OnOk result (IsTrue (D.is_usable keeper.new.log.disk)) }
    ensures waiting { keeper.new.waiting ≡ keeper.old.waiting }
    ensures limit { keeper.new.limit ≡ keeper.old.limit }
    ensures observers { OnOk result
        (keeper.new.state.observers ≡ keeper.old.state.observers) }
    // So many are its changes, which were all made again.
    ensures opened { (written : Option (List ℕ)) → IfOk result (λ n.
        IsTrue (D.is_clean keeper.new.log.disk)
        → IsOpenedLog manifest.now (D.seen keeper.old.log.disk) keeper.old.state.observers n
        (keeper_view D.seen D.may_leave keeper.new written)) }
{
    Ok(keeper.open(alloc, manifest.as_bytes())?)
}
