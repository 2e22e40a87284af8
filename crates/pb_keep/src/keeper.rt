//! A table, its log, and the lines that wait.
ghost use Rattle.std.specs.Prelude.{◌≡◌, ◌⊎◌, ◌∷◌, ◌++◌, ◌<◌, ◌^◌, ℕ, List, Option, [], false, length, OnOk, IfOk, IfErr, IsTrue};
ghost use Rattle.sqlite_disk.specs.Disk.{Only};
ghost use Rattle.pb_base.specs.Batch.{Writes};
ghost use Rattle.std.specs.Io.KnownBytes.{Appends};
ghost use Rattle.pb_keeper.specs.Keeps.{opened_table, IsFirstTable, Keeps};
ghost use Rattle.pb_keeper.specs.Stats.{kept_table, KeptTable};
ghost use Rattle.pb_log.specs.Header.{header};
ghost use Rattle.pb_log.specs.Records.{IsLog, IsReadable, IsShutOrNew};
ghost use Rattle.pb_snapshots.specs.Snapshot.{SnapshotOf};
ghost use Rattle.pb_keep.specs.Kept.{head, origin_of, HasChanges, IsLogOf, IsShutFile, Origin};
ghost use Rattle.pb_keep.specs.Waits.{changes_in, AreAnswers, IsNoLine, IsWaiting};
ghost use Rattle.pb_keep.specs.Conversations.{beginning, keeper_view, Beginning, LeavesFirst, Serves};
ghost use Rattle.pb_keep.specs.Opened.{IsOpenedLog};
ghost use Rattle.pb_keep.specs.Causes.{IsOfLogFile, IsOfPut, WhyNotKept, WhyNotMadeAgain};
ghost use Rattle.pb_keep.specs.Left.{AreInTime, IsLeftBy, IsOfLog};

use crate::anew::make_records_anew;
use crate::fault::KeepFault;
use crate::first::begin;
use crate::head::head_of;
use crate::made::make_and_answer;
use crate::take::write;
use crate::waiting::Waiting;
use pb_base::{Sink, Ts};
use pb_keeper::{ObserverStats, tables_keep_their_changes};
use pb_log::{Log, files_have_one_reading};
use pb_snapshots::snapshots_are_no_texts;
use pb_state::State;
use pb_store::Tablet;
use sqlite_disk::Disk;
use std::alloc::Global;
use std::mem;

/// A table that is kept: its log, its state, what the runs of its observers did, the lines that wait, and since when its writes
/// are there. It ends by `close` alone.
pub struct Keeper<T: Tablet, D: Disk + Drop> {
    pub log: Log<D>,
    pub state: State<T>,
    pub stats: Vec<ObserverStats>,
    pub waiting: Waiting,
    /// How many entries its table may have: with so many or more it takes no change, and the runs that follow a change stay within
    /// it. It's the log's own.
    pub limit: u64,
    /// All writes above this commit are there; of those before, only what its log's snapshot has.
    pub since: Ts,
}

// Puts the changes that wait into the log, if there are any.
fn put_script<D: Disk + Drop>(
    alloc: Global,
    log: &mut Log<D>,
    waiting: &Waiting,
) -> Result<(), KeepFault>
    requires usable { IsTrue (D.is_usable log.old.disk) }
    requires waiting { IsWaiting waiting.now }
    ensures usable { OnOk result (IsTrue (D.is_usable log.new.disk)) }
    ensures put { (origin : Origin) (changes : List Writes)
        → IsLogOf origin changes (D.seen log.old.disk) (D.may_leave log.old.disk) log.old.end
        → OnOk result (IsLogOf origin (changes ++ changes_in waiting.now.items.items)
        (D.seen log.new.disk) (D.may_leave log.new.disk) log.new.end) }
    ensures crash { (origin : Origin) (changes : List Writes)
        → IsLogOf origin changes (D.seen log.old.disk) (D.may_leave log.old.disk) log.old.end
        → (c : List ℕ) → D.may_leave log.new.disk c
        → HasChanges origin changes c
        ⊎ HasChanges origin (changes ++ changes_in waiting.now.items.items) c }
    ensures shut { ((d : _) → IsTrue (D.is_mixing d)) → (origin : Origin) (changes : List Writes)
        → IsLogOf origin changes (D.seen log.old.disk) (D.may_leave log.old.disk) log.old.end
        → (c : List ℕ) → D.may_leave log.new.disk c → IsShutFile c }
    ensures cause { IfErr result
        (IsOfPut (D.faults log.old.disk) (D.faults log.new.disk) log.new.end) }
    ensures faultless { OnOk result (D.faults log.new.disk ≡ D.faults log.old.disk) }
{
    if waiting.changes > 0 {
        log.put(alloc, waiting.script.as_bytes())?;
    }
    Ok(())
}

impl<T: Tablet, D: Disk + Drop> Keeper<T, D> {
    /// A table that isn't opened yet: its log is on this disk, nothing was done to its state, these are the stats of its
    /// observers, and this is its limit of entries, which is none where it's the greatest number.
    pub fn new(
        alloc: Global,
        disk: D,
        state: State<T>,
        stats: Vec<ObserverStats>,
        limit: u64,
    ) -> Keeper<T, D>
        ensures disk { result.log.disk ≡ disk }
        ensures state { result.state ≡ state }
        ensures stats { result.stats.items ≡ stats.items }
        ensures idle { IsNoLine result.waiting }
        ensures since { result.since.0 ≡ 0 }
        ensures limit { result.limit ≡ limit }
        ensures waiting { IsWaiting result.waiting }
    {
        Keeper {
            log: Log::new(disk),
            state,
            stats,
            waiting: Waiting::new(alloc),
            limit,
            since: Ts(0),
        }
    }

    /// Opens the log of this manifest and of the keeper's limit, or makes it, begins with its snapshot, if it has one, and makes its changes again, in
    /// order. Returns how many they are. The manifest has less than 2^30 bytes.
    pub fn open(&mut self, alloc: Global, manifest: &[u8]) -> Result<u64, KeepFault>
        requires usable { IsTrue (D.is_usable self.old.log.disk) }
        requires restarted { Only (D.seen self.old.log.disk) (D.may_leave self.old.log.disk) }
        requires short { length manifest.now < 2 ^ 30 }
        requires opened { kept_table self.old.state self.old.stats.items
            ≡ opened_table self.old.state.observers }
        ensures usable { OnOk result (IsTrue (D.is_usable self.new.log.disk)) }
        ensures waiting { self.new.waiting ≡ self.old.waiting }
        ensures limit { self.new.limit ≡ self.old.limit }
        // The table has the same observers.
        ensures observers { OnOk result
            (self.new.state.observers ≡ self.old.state.observers) }
        ensures kept { (written : Option (List ℕ)) → IfOk result (λ n.
            IsTrue (D.is_clean self.new.log.disk)
            → IsOpenedLog manifest.now (D.seen self.old.log.disk) self.old.state.observers n
            (keeper_view D.seen D.may_leave self.new written)) }
        // Then no line is served yet.
        ensures serves { (written : Option (List ℕ))
            → IsNoLine self.old.waiting
            → IfOk result (λ n. IsTrue (D.is_clean self.new.log.disk)
            → (o : IsOpenedLog manifest.now (D.seen self.old.log.disk) self.old.state.observers n
            (keeper_view D.seen D.may_leave self.new written))
            × ((past : List Writes) → IsFirstTable past o.first
            → Serves (beginning o.origin o.first o.changes
            (kept_table self.new.state self.new.stats.items) written) []
            (keeper_view D.seen D.may_leave self.new written))) }
        // A fault has its cause in the file or the disk, or at the end of the clock.
        ensures cause { IfErr result (λ e. IsTrue (D.is_clean self.new.log.disk)
            → WhyNotMadeAgain self.old.limit self.old.state.observers manifest.now
            (D.faults self.old.log.disk) (D.faults self.new.log.disk)
            (D.seen self.old.log.disk) self.new.state e) }
        // Where the log can't be opened for what it has, it is as it was.
        ensures same { IfErr result (λ e. IsOfLogFile e
            → D.seen self.new.log.disk ≡ D.seen self.old.log.disk) }
        // On every path a crash leaves the records that the log has, or the first if it had none.
        ensures records { IsTrue (D.is_clean self.new.log.disk)
            → (rs : List (List ℕ)) → IsLog (D.seen self.old.log.disk) rs
            → (c : List ℕ) → D.may_leave self.new.log.disk c
            → IsLog c rs
            ⊎ ((rs ≡ []) × IsLog c (header (head self.old.limit manifest.now) ∷ [])) }
        // So it leaves the changes that the log has.
        ensures crash { IsTrue (D.is_clean self.new.log.disk)
            → (snapshot : Option SnapshotOf) (changes : List Writes)
            → HasChanges (origin_of self.old.limit manifest.now snapshot) changes
            (D.seen self.old.log.disk)
            → (c : List ℕ) → D.may_leave self.new.log.disk c
            → HasChanges (origin_of self.old.limit manifest.now snapshot) changes c }
        // Where each byte of a torn write is old or new, what may be opened may be opened then.
        ensures shut { ((d : _) → IsTrue (D.is_mixing d)) → IsTrue (D.is_clean self.new.log.disk)
            → (rs : List (List ℕ)) → IsReadable (D.seen self.old.log.disk) rs
            → (c : List ℕ) → D.may_leave self.new.log.disk c → IsShutOrNew c }
    {
        // For the proof: as it begins, a table keeps no change of its own; and a file has one list of records, of which that of a
        // snapshot is no text.
        tables_keep_their_changes();
        files_have_one_reading();
        snapshots_are_no_texts();
        let head = head_of(alloc, self.limit, manifest)?;
        let mut records = self.log.open(alloc, &head)?;
        self.since = begin(alloc, &mut self.state, &mut self.stats, &mut records)?;
        make_records_anew(alloc, &mut self.state, &mut self.stats, records, self.limit)
    }

    // Puts what waits into the log, makes its changes, and writes the answers.
    fn put_and_make<S: Sink>(&mut self, alloc: Global, out: &mut S) -> Result<(), KeepFault>
        requires usable { IsTrue (D.is_usable self.old.log.disk) }
        requires waiting { IsWaiting self.old.waiting }
        ensures usable { OnOk result (IsTrue (D.is_usable self.new.log.disk)) }
        ensures idle { OnOk result (IsNoLine self.new.waiting) }
        ensures since { self.new.since ≡ self.old.since }
        ensures limit { self.new.limit ≡ self.old.limit }
        ensures observers { OnOk result
            (self.new.state.observers ≡ self.old.state.observers) }
        ensures kept { (origin : Origin) (first : KeptTable) (changes : List Writes)
            → IsLogOf origin changes (D.seen self.old.log.disk)
            (D.may_leave self.old.log.disk) self.old.log.end
            → Keeps self.old.limit first changes (kept_table self.old.state self.old.stats.items)
            → OnOk result (IsLogOf origin (changes ++ changes_in self.old.waiting.items.items)
            (D.seen self.new.log.disk) (D.may_leave self.new.log.disk) self.new.log.end
            × Keeps self.old.limit first (changes ++ changes_in self.old.waiting.items.items)
            (kept_table self.new.state self.new.stats.items)) }
        ensures answers { OnOk result ((text : List ℕ)
            × AreAnswers self.old.limit self.old.waiting.items.items
            (kept_table self.old.state self.old.stats.items)
            (kept_table self.new.state self.new.stats.items) text
            × Appends (S.taken out.old) (S.taken out.new) text) }
        ensures err { (origin : Origin) (changes : List Writes)
            → IsLogOf origin changes (D.seen self.old.log.disk)
            (D.may_leave self.old.log.disk) self.old.log.end
            → IfErr result (IsLeftBy self.old.limit origin changes self.old.waiting.items.items
            (kept_table self.old.state self.old.stats.items)
            (kept_table self.new.state self.new.stats.items)
            (S.taken out.old) (S.taken out.new) (D.may_leave self.new.log.disk)) }
        ensures unmade { IfErr result (λ e. IsOfLog e → (self.new.state ≡ self.old.state)
            × (self.new.stats.items ≡ self.old.stats.items)
            × (S.taken out.new ≡ S.taken out.old)) }
        ensures shut { ((d : _) → IsTrue (D.is_mixing d))
            → (origin : Origin) (changes : List Writes)
            → IsLogOf origin changes (D.seen self.old.log.disk)
            (D.may_leave self.old.log.disk) self.old.log.end
            → (c : List ℕ) → D.may_leave self.new.log.disk c → IsShutFile c }
        ensures cause { (first : KeptTable) (changes : List Writes)
            → Keeps self.old.limit first changes (kept_table self.old.state self.old.stats.items)
            → AreInTime self.old.waiting.items.items self.old.state
            → IfErr result (WhyNotKept (D.faults self.old.log.disk)
            (D.faults self.new.log.disk) (S.failed out.new)
            (keeper_view D.seen D.may_leave self.new (S.taken out.new))) }
        ensures faultless { OnOk result
            (D.faults self.new.log.disk ≡ D.faults self.old.log.disk) }
    {
        put_script(alloc, &mut self.log, &self.waiting)?;
        let Waiting { items, .. } = mem::replace(&mut self.waiting, Waiting::new(alloc));
        let mut text = String::new(alloc);
        let done = make_and_answer(
            alloc,
            &mut self.state,
            &mut self.stats,
            items,
            &mut text,
            self.limit,
        );
        // Also where a change was stopped: those before it are made.
        write(out, text.as_str())?;
        done
    }

    /// Keeps what waits, which is no group without its `end`: its changes by one record of the log, if there are any, which
    /// is on the disk before the first of them is made; then each is made with its observers; then all lines are answered, in
    /// their order.
    pub fn keep<S: Sink>(&mut self, alloc: Global, out: &mut S) -> Result<(), KeepFault>
        requires usable { IsTrue (D.is_usable self.old.log.disk) }
        requires waiting { IsWaiting self.old.waiting }
        requires alone { self.old.waiting.is_group ≡ false }
        ensures usable { OnOk result (IsTrue (D.is_usable self.new.log.disk)) }
        ensures idle { OnOk result (IsNoLine self.new.waiting) }
        // The table has the same observers.
        ensures observers { OnOk result
            (self.new.state.observers ≡ self.old.state.observers) }
        ensures serves { (b : Beginning) (lines : List (List ℕ))
            → Serves b lines (keeper_view D.seen D.may_leave self.old (S.taken out.old))
            → OnOk result (Serves b lines
            (keeper_view D.seen D.may_leave self.new (S.taken out.new))) }
        // On every path a crash leaves the changes of the first lines, with all that are answered.
        ensures crash { (b : Beginning) (lines : List (List ℕ))
            → Serves b lines (keeper_view D.seen D.may_leave self.old (S.taken out.old))
            → (c : List ℕ) → D.may_leave self.new.log.disk c
            → LeavesFirst b lines (S.taken out.new) c }
        // Where each byte of a torn write is old or new, a closed gate stands after the records.
        ensures shut { ((d : _) → IsTrue (D.is_mixing d)) → (b : Beginning) (lines : List (List ℕ))
            → Serves b lines (keeper_view D.seen D.may_leave self.old (S.taken out.old))
            → (c : List ℕ) → D.may_leave self.new.log.disk c → IsShutFile c }
        // Where the log failed, nothing is made, and nothing is written.
        ensures unmade { IfErr result (λ e. IsOfLog e → (self.new.state ≡ self.old.state)
            × (self.new.stats.items ≡ self.old.stats.items)
            × (S.taken out.new ≡ S.taken out.old)) }
        // A fault has its cause.
        ensures cause { (b : Beginning) (lines : List (List ℕ))
            → Serves b lines (keeper_view D.seen D.may_leave self.old (S.taken out.old))
            → IfErr result (WhyNotKept (D.faults self.old.log.disk)
            (D.faults self.new.log.disk) (S.failed out.new)
            (keeper_view D.seen D.may_leave self.new (S.taken out.new))) }
        ensures faultless { OnOk result
            (D.faults self.new.log.disk ≡ D.faults self.old.log.disk) }
    {
        self.put_and_make(alloc, out)
    }

    /// Ends it, with its table, and returns its log as it is.
    pub fn close(self) -> Log<D>
        ensures { result ≡ self.log }
    {
        let Keeper {
            log,
            state,
            stats: _,
            waiting: _,
            limit: _,
            since: _,
        } = self;
        state.close();
        log
    }
}
