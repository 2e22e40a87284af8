//! The changes of a log, made again when it is opened.
ghost use Rattle.std.specs.Prelude.{◌≡◌, ◌<◌, ◌^◌, ◌∷◌, ◌++◌, [], List, false, length, map, IfOk, IfErr, IfSome, OnOk, OnErr, Ok, IsUtf8};
ghost use Rattle.pb_base.specs.Batch.{Writes};
ghost use Rattle.pb_parse.specs.ScriptLines.{script_of};
ghost use Rattle.pb_keeper.specs.Keeps.{Keeps};
ghost use Rattle.pb_keeper.specs.Stats.{kept_table, KeptTable};
ghost use Rattle.pb_keep.specs.Again.{in_part, AreFirstMade, AreSomeMade, IsRecordLeft, IsRecordMade, WhyNotAllMade};
ghost use Rattle.pb_keep.specs.Causes.{IsOfAnew, IsOfReading, IsOfScript};
ghost use Rattle.pb_keep.specs.First.{is_full};
ghost use Rattle.pb_keep.specs.Kept.{changes_of, reported_count, AreTexts};
ghost use Rattle.pb_keep.specs.Left.{IsRightOf};

use crate::fault::KeepFault;
use crate::made::make_counted;
use pb_base::Batch;
use pb_keeper::ObserverStats;
use pb_parse::parse_script;
use pb_reading::TextFault;
use pb_state::State;
use pb_store::Tablet;
use std::alloc::Global;

// The changes of a record.
fn batches_of(alloc: Global, record: &[u8]) -> Result<Vec<Batch>, KeepFault>
    ensures ok { IfOk result (λ v. script_of «record».now ≡ Ok v.items) }
    ensures text { OnOk result (IsUtf8 «record».now) }
    ensures why { IfErr result (IsOfScript «record».now) }
{
    let Ok(text) = std::str::from_utf8(record) else {
        return Err(KeepFault::Record);
    };
    match parse_script(alloc, text) {
        Ok(batches) => Ok(batches),
        Err(TextFault::NoMemory(refused)) => Err(KeepFault::NoMemory(refused)),
        Err(TextFault::At { .. }) => Err(KeepFault::Record),
    }
}

// How many changes records have, or the greatest `u64` where they are more.
pub(crate) fn count_changes(alloc: Global, records: &[Vec<u8>]) -> Result<u64, KeepFault>
    ensures counted { IfOk result (λ n. (all : List Writes)
        × (changes_of (map (λ v. v.items) records.now) ≡ Ok all)
        × (n ≡ reported_count (length all))) }
    ensures texts { OnOk result (AreTexts (map (λ v. v.items) records.now)) }
    ensures why { IfErr result (IsOfReading (map (λ v. v.items) records.now)) }
{
    let mut count = 0u64;
    for record in records {
        let batches = batches_of(alloc, record)?;
        count = count.saturating_add(batches.len() as u64);
    }
    Ok(count)
}

// Whether so many changes are made that no more may be.
fn is_full(most: Option<u64>, made: u64) -> bool
    ensures full { result ≡ is_full most made }
    ensures range { IfSome most (λ n. n < 2 ^ 64) }
{
    match most {
        Some(most) => most <= made,
        None => false,
    }
}

// Makes the changes of a record, in order, each with its observers, until no more may be made, and counts those that are.
fn make_anew<T: Tablet>(
    alloc: Global,
    state: &mut State<T>,
    stats: &mut Vec<ObserverStats>,
    record: &[u8],
    most: Option<u64>,
    made: &mut u64,
    limit: u64,
) -> Result<(), KeepFault>
    requires room { is_full most made.old ≡ false }
    ensures keeps { OnOk result (IsRecordMade limit most «record».now
        (kept_table state.old stats.old.items) (kept_table state.new stats.new.items)
        made.old made.new) }
    ensures observers { OnOk result (state.new.observers ≡ state.old.observers) }
    ensures why { IfErr result (IsOfAnew («record».now ∷ [])) }
    ensures right { (first : KeptTable) (changes : List Writes)
        → Keeps limit first changes (kept_table state.old stats.old.items)
        → IfErr result (IsRightOf state.new) }
    ensures left { OnErr result (IsRecordLeft limit «record».now
        (kept_table state.old stats.old.items) state.new made.old made.new) }
    ensures fewer { OnErr result (is_full most made.new ≡ false) }
{
    // For the proof: a number has its range once it is read.
    let _was = *made;
    let batches = batches_of(alloc, record)?;
    for batch in batches {
        if is_full(most, *made) {
            return Ok(());
        }
        make_counted(alloc, state, stats, batch, limit)?;
        *made = made.saturating_add(1);
    }
    Ok(())
}

// Makes the first changes of records, in order, each with its observers: at most `most` of them, where a number is given. Counts those
// that are made, also where one is stopped.
pub(crate) fn make_first<T: Tablet>(
    alloc: Global,
    state: &mut State<T>,
    stats: &mut Vec<ObserverStats>,
    records: Vec<Vec<u8>>,
    most: Option<u64>,
    made: &mut u64,
    limit: u64,
) -> Result<(), KeepFault>
    requires none { made.old ≡ 0 }
    ensures first { (changes : List Writes)
        → changes_of (map (λ v. v.items) records.items) ≡ Ok changes
        → OnOk result (AreFirstMade limit most changes (kept_table state.old stats.old.items)
        (kept_table state.new stats.new.items) made.new) }
    ensures observers { OnOk result (state.new.observers ≡ state.old.observers) }
    ensures why { IfErr result (IsOfAnew (map (λ v. v.items) records.items)) }
    ensures right { (first : KeptTable) (changes : List Writes)
        → Keeps limit first changes (kept_table state.old stats.old.items)
        → IfErr result (IsRightOf state.new) }
    ensures some { (changes : List Writes)
        → changes_of (map (λ v. v.items) records.items) ≡ Ok changes
        → OnErr result (AreSomeMade limit changes (kept_table state.old stats.old.items)
        state.new made.new) }
    // Where one is stopped, fewer are made than may be.
    ensures fewer { OnErr result (is_full most made.new ≡ false) }
{
    for record in records {
        if is_full(most, *made) {
            return Ok(());
        }
        make_anew(alloc, state, stats, &record, most, made, limit)?;
    }
    Ok(())
}

// Want of memory is reported with how many changes were made of how many.
fn in_part(fault: KeepFault, made: u64, all: u64) -> KeepFault
    ensures { result ≡ in_part fault made all }
{
    match fault {
        KeepFault::NoMemory(refused) => KeepFault::MadeInPart(refused, made, all),
        other => other,
    }
}

/// Makes the changes of records, in order, each with its observers, and returns how many they are, or the greatest `u64`
/// where they are more. The table has this limit of entries. All are read before the first is made. Where memory is refused then, the fault says how many were
/// made of how many.
pub fn make_records_anew<T: Tablet>(
    alloc: Global,
    state: &mut State<T>,
    stats: &mut Vec<ObserverStats>,
    records: Vec<Vec<u8>>,
    limit: u64,
) -> Result<u64, KeepFault>
    ensures keeps { IfOk result (λ n. (more : List Writes)
        × (changes_of (map (λ v. v.items) records.items) ≡ Ok more)
        × ((first : KeptTable) (changes : List Writes)
        → Keeps limit first changes (kept_table state.old stats.old.items)
        → Keeps limit first (changes ++ more) (kept_table state.new stats.new.items))
        × (n ≡ reported_count (length more))) }
    ensures texts { OnOk result (AreTexts (map (λ v. v.items) records.items)) }
    ensures observers { OnOk result (state.new.observers ≡ state.old.observers) }
    // A fault has its cause: a record that is no script, or a clock at its end.
    ensures why { IfErr result (WhyNotAllMade limit (map (λ v. v.items) records.items)
        (kept_table state.old stats.old.items) state.new) }
{
    let all = count_changes(alloc, &records)?;
    let mut made = 0u64;
    match make_first(alloc, state, stats, records, None, &mut made, limit) {
        Ok(()) => Ok(made),
        Err(fault) => Err(in_part(fault, made, all)),
    }
}
