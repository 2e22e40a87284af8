//! A log that is replaced by one which begins with a snapshot of its table.
ghost use Rattle.std.specs.Prelude.{◌≡◌, ◌⊎◌, ◌++◌, ◌<◌, ◌^◌, ℕ, List, Option, length, IfOk, IsTrue, OnErr, OnOk};
ghost use Rattle.sqlite_disk.specs.Disk.{Only};
ghost use Rattle.pb_base.specs.Batch.{Writes};
ghost use Rattle.pb_keeper.specs.Keeps.{opened_table, IsFirstTable, KeepsFrom};
ghost use Rattle.pb_keeper.specs.Stats.{kept_table, KeptTable};
ghost use Rattle.pb_keep.specs.Anew.{HasVersions};
ghost use Rattle.pb_keep.specs.Conversations.{keeper_view};
ghost use Rattle.pb_keep.specs.Opened.{IsOpenedLog};
ghost use Rattle.pb_keep.specs.Replaced.{HasBegunAnew, IsReplacedBy};
ghost use Rattle.pb_keep.specs.Waits.{IsNoLine, IsWaiting};
ghost use Rattle.pb_keep.specs.declared.folder.NamedLog.TheVariants as files;

use crate::compact::SnapshotFault;
use crate::fault::KeepFault;
use crate::folder::Folder;
use crate::keeper::Keeper;
use crate::laws::files_have_one_list;
use pb_keeper::ObserverStats;
use pb_log::Log;
use pb_snapshots::snapshots_begin;
use pb_state::State;
use pb_store::Tablet;
use std::alloc::Global;
use std::mem;

/// Why a log wasn't replaced.
#[derive(Drop)]
pub enum ReplaceFault<E: Drop> {
    /// No log was begun with a snapshot of the table.
    Snapshot(SnapshotFault),
    /// The new log can't be opened.
    New(KeepFault),
    /// The new log has changes.
    NotNew,
    /// A call of the folder failed.
    Folder(E),
}

// Begins a log in the new file with a snapshot of the table, and closes it. Returns how many versions the snapshot has.
fn write_new<T: Tablet, F: Folder>(
    alloc: Global,
    keeper: &Keeper<T, F::LogDisk>,
    folder: &mut F,
    limit: u64,
    manifest: &[u8],
) -> Result<usize, ReplaceFault<F::CallFault>>
    requires durable { IsTrue (F.is_known folder.old)
        → Only (F.seen folder.old) (F.may_leave folder.old) }
    requires short { length manifest.now < 2 ^ 30 }
    ensures known { IsTrue (F.is_known folder.new) → IsTrue (F.is_known folder.old) }
    ensures named { IsTrue (F.is_known folder.new) → F.named folder.new ≡ F.named folder.old }
    ensures begun { IfOk result (λ n. IsTrue (F.is_known folder.new)
        → HasBegunAnew limit manifest.now (kept_table keeper.now.state keeper.now.stats.items) n
        (F.seen folder.new) (F.may_leave folder.new)) }
    ensures versions { IfOk result
        (HasVersions (kept_table keeper.now.state keeper.now.stats.items)) }
{
    let file = match folder.open_new() {
        Ok(file) => file,
        Err(fault) => return Err(ReplaceFault::Folder(fault)),
    };
    let mut log = Log::new(file);
    let wrote = keeper.snapshot_into(alloc, &mut log, limit, manifest);
    folder.close_new(log.disk);
    match wrote {
        Ok(versions) => Ok(versions),
        Err(fault) => Err(ReplaceFault::Snapshot(fault)),
    }
}

// Opens the log of the new file, which has no change, with a state as opened and these stats.
fn open_new<T: Tablet, F: Folder>(
    alloc: Global,
    folder: &mut F,
    state: State<T>,
    stats: Vec<ObserverStats>,
    limit: u64,
    manifest: &[u8],
) -> Result<Keeper<T, F::LogDisk>, ReplaceFault<F::CallFault>>
    requires durable { IsTrue (F.is_known folder.old)
        → Only (F.seen folder.old) (F.may_leave folder.old) }
    requires short { length manifest.now < 2 ^ 30 }
    requires opened { kept_table state stats.items ≡ opened_table state.observers }
    ensures usable { IfOk result (λ k. IsTrue (F.LogDisk.is_usable k.log.disk)) }
    ensures waiting { IfOk result (λ k. IsWaiting k.waiting) }
    ensures idle { IfOk result (λ k. IsNoLine k.waiting) }
    ensures limit { IfOk result (λ k. k.limit ≡ limit) }
    ensures observers { IfOk result (λ k. k.state.observers ≡ state.observers) }
    ensures known { IsTrue (F.is_known folder.new) → IsTrue (F.is_known folder.old) }
    ensures named { IsTrue (F.is_known folder.new) → F.named folder.new ≡ F.named folder.old }
    ensures opened { (written : Option (List ℕ)) → IfOk result (λ k.
        IsTrue (F.is_known folder.new) → IsTrue (F.LogDisk.is_clean k.log.disk)
        → IsOpenedLog manifest.now (F.seen folder.old) state.observers 0
        (keeper_view F.LogDisk.seen F.LogDisk.may_leave k written)) }
{
    let file = match folder.open_new() {
        Ok(file) => file,
        Err(fault) => {
            state.close();
            return Err(ReplaceFault::Folder(fault));
        }
    };
    let mut keeper = Keeper::new(alloc, file, state, stats, limit);
    match keeper.open(alloc, manifest) {
        Ok(0) => Ok(keeper),
        Ok(_) => {
            keeper.close();
            Err(ReplaceFault::NotNew)
        }
        Err(fault) => {
            keeper.close();
            Err(ReplaceFault::New(fault))
        }
    }
}

// Gives the name of the log to the new file, and waits until that is on the disk.
fn put_in_place<F: Folder>(folder: &mut F) -> Result<(), F::CallFault>
    ensures known { IsTrue (F.is_known folder.new) → IsTrue (F.is_known folder.old) }
    ensures ok { OnOk result (IsTrue (F.is_known folder.new) → F.named folder.new ≡ files.New) }
{
    match folder.rename_new() {
        Ok(()) => folder.sync(),
        Err(fault) => Err(fault),
    }
}

/// Replaces the log by one of this limit of entries and this manifest, which begins with a snapshot of the table, and goes on with
/// what is opened with that. Returns how many versions the snapshot has.
///
/// The new log is written and synced, and closed; then it is opened as any log; then it gets the name of the old one, and the
/// folder is synced. So whatever call fails, and whenever the machine stops, the name leads to a whole log: the old one, or the
/// new one. If it fails, the keeper is as it was.
///
/// The new file is empty. The state is empty, as opened with the observers of the manifest, which the caller has to give for those
/// of the table, and these are their stats. It takes the place of the keeper's, which is closed. If the call fails, the given state
/// is closed instead.
pub fn replace_log<T: Tablet, F: Folder>(
    alloc: Global,
    keeper: &mut Keeper<T, F::LogDisk>,
    folder: &mut F,
    state: State<T>,
    stats: Vec<ObserverStats>,
    limit: u64,
    manifest: &[u8],
) -> Result<usize, ReplaceFault<F::CallFault>>
    requires usable { IsTrue (F.LogDisk.is_usable keeper.old.log.disk) }
    requires waiting { IsWaiting keeper.old.waiting }
    requires durable { IsTrue (F.is_known folder.old)
        → Only (F.seen folder.old) (F.may_leave folder.old) }
    requires short { length manifest.now < 2 ^ 30 }
    requires opened { kept_table state stats.items ≡ opened_table state.observers }
    ensures usable { IsTrue (F.LogDisk.is_usable keeper.new.log.disk) }
    ensures waiting { IsWaiting keeper.new.waiting }
    ensures observers { OnOk result (keeper.new.state.observers ≡ state.observers) }
    ensures idle { OnOk result (IsNoLine keeper.new.waiting) }
    ensures limit { OnOk result (keeper.new.limit ≡ limit) }
    // The name leads to the new log, with a snapshot of the table. The keeper goes on with it.
    ensures replaced { (written : Option (List ℕ)) → IfOk result (λ n.
        IsTrue (F.is_known folder.new) → IsTrue (F.LogDisk.is_clean keeper.new.log.disk)
        → (F.named folder.new ≡ files.New) × IsReplacedBy limit manifest.now
        (kept_table keeper.old.state keeper.old.stats.items) n
        (keeper_view F.LogDisk.seen F.LogDisk.may_leave keeper.new written)) }
    ensures versions { IfOk result
        (HasVersions (kept_table keeper.old.state keeper.old.stats.items)) }
    // With the same observers, a table that keeps changes begins the next generation.
    ensures begins { state.observers ≡ keeper.old.state.observers
        → (own : ℕ) (past changes : List Writes) (first : KeptTable) → IsFirstTable past first
        → KeepsFrom own first changes (kept_table keeper.old.state keeper.old.stats.items)
        → OnOk result (IsTrue (F.is_known folder.new)
        → IsTrue (F.LogDisk.is_clean keeper.new.log.disk)
        → IsFirstTable (past ++ changes) (kept_table keeper.new.state keeper.new.stats.items)) }
    // Otherwise the keeper is as it was, and the name leads to either log, which is whole.
    ensures same { OnErr result (keeper.new ≡ keeper.old) }
    ensures left { OnErr result (IsTrue (F.is_known folder.new)
        → (F.named folder.new ≡ F.named folder.old)
        ⊎ ((n : ℕ) × HasBegunAnew limit manifest.now
        (kept_table keeper.old.state keeper.old.stats.items) n
        (F.seen folder.new) (F.may_leave folder.new))) }
{
    // For the proof: a file has one snapshot, and what is opened with one of a table begins its next generation.
    files_have_one_list();
    snapshots_begin();
    let versions = match write_new(alloc, keeper, folder, limit, manifest) {
        Ok(versions) => versions,
        Err(fault) => {
            state.close();
            return Err(fault);
        }
    };
    let new = open_new(alloc, folder, state, stats, limit, manifest)?;
    match put_in_place(folder) {
        Ok(()) => {
            mem::replace(keeper, new).close();
            Ok(versions)
        }
        Err(fault) => {
            let log = new.close();
            folder.close_new(log.disk);
            Err(ReplaceFault::Folder(fault))
        }
    }
}
