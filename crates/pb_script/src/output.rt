//! The report of a table: the committed writes and runs of its journal, gathered entry by entry, and written.
ghost use Rattle.std.specs.Prelude.{◌≡◌, ◌++◌, IfOk, OnOk, List, map, string_bytes, false};
ghost use Rattle.pb_script.specs.Puts.{put_by, puts_by};
ghost use Rattle.pb_script.specs.Committed.{AreSeen, HasNewest};
ghost use Rattle.pb_script.specs.Reports.{AreNewest};
ghost use Rattle.pb_script.specs.declared.reports.newest.Put.{Put};
ghost use Rattle.pb_script.specs.TableReports.{IsReportIn, Reports};
ghost use Rattle.pb_base.specs.Taking.{taking};

use crate::fault::ReportFault;
use crate::reports::{Newest, Put, note, report_of};
use crate::tallies::tallies_of;
use pb_base::{Batch, Cell, Content, NoMemory, Sink, Ts};
use pb_core::Shared;
use pb_history::KeptEntry;
use pb_steps::{Answer, Declared, Phase};
use pb_store::Tablet;
use std::alloc::Global;
use std::collections::BTreeMap;

// Notes what a committed script transaction wrote.
fn note_batch(table: &mut BTreeMap<Cell, Newest>, batch: &Batch, commit: Ts) -> Result<(), NoMemory>
    ensures { OnOk result
        ((puts : List Put) → AreNewest puts table.old
        → AreNewest (puts ++ map (put_by commit) batch.now) table.new) }
{
    for place in 0..batch.len() {
        let (cell, content) = batch.at(place);
        note(
            table,
            &Put {
                cell,
                commit,
                content,
            },
        )?;
    }
    Ok(())
}

// Notes what the program of a committed run wrote.
fn note_writes(
    table: &mut BTreeMap<Cell, Newest>,
    writes: &[(Cell, Content)],
    commit: Ts,
) -> Result<(), NoMemory>
    ensures { OnOk result ((puts : List Put) → AreNewest puts table.old
        → AreNewest (puts ++ map (put_by commit) writes.now) table.new) }
{
    for write in writes {
        note(
            table,
            &Put {
                cell: write.0,
                commit,
                content: write.1,
            },
        )?;
    }
    Ok(())
}

// Notes what an entry's transaction wrote to data cells, if the entry declares it and it is committed. The
// acknowledgment of a run isn't among the writes of its program, so that none is noted here.
fn note_entry<T: Tablet>(
    table: &mut BTreeMap<Cell, Newest>,
    shared: &Shared<T>,
    entry: &KeptEntry,
) -> Result<(), NoMemory>
    ensures { OnOk result ((puts : List Put) → AreNewest puts table.old
        → AreNewest (puts ++ puts_by shared.now.state entry.now) table.new) }
{
    let Some((start, what)) = entry.call().declares() else {
        return Ok(());
    };
    if entry.call().answer() != Answer::Done {
        return Ok(());
    }
    // The entry of a commit names no writes, so that declarations are looked at, with what became
    // of each.
    let Some(Phase::Committed(commit)) = shared.phase(start) else {
        return Ok(());
    };
    match what.get() {
        Declared::Script(batch) => note_batch(table, batch, commit),
        Declared::Run(_, run) => note_writes(table, run.get().writes(), commit),
    }
}

// The newest committed write of each data cell of a table, kept by cells, so that the lines come out by row and column.
fn newest_of<T: Tablet>(
    alloc: Global,
    shared: &Shared<T>,
) -> Result<BTreeMap<Cell, Newest>, NoMemory>
    ensures newest { IfOk result (λ m. HasNewest shared.now.state.observers shared.now.journal m) }
    ensures seen { AreSeen shared.now.state.observers shared.now.journal shared.now.state.clock }
{
    let mut table = BTreeMap::new(alloc);
    for entry in shared.journal() {
        note_entry(&mut table, shared, entry)?;
    }
    Ok(table)
}

// The text of the report, whole before anything is written, so that a refusal for memory leaves no beginning of it.
fn text_of<T: Tablet>(alloc: Global, shared: &Shared<T>) -> Result<String, NoMemory>
    ensures { IfOk result (λ s. IsReportIn shared.now (string_bytes s)) }
{
    let table = newest_of(alloc, shared)?;
    let tallies = tallies_of(alloc, shared)?;
    report_of(alloc, &table, &tallies, shared.marks(), shared.locks())
}

/// Writes the report of a table: the newest committed write of each data cell, the runs of each observer, and what is left
/// to do. A cell's line is of what a snapshot at the table's clock has there, and an observer's of how many committed
/// transactions are runs of it. Where a write failed or took no byte, a beginning was written; refused for memory, nothing
/// was.
pub fn report<T: Tablet, S: Sink>(
    alloc: Global,
    sink: &mut S,
    shared: &Shared<T>,
) -> Result<(), ReportFault>
    requires unfailed { S.failed sink.old ≡ false }
    ensures { Reports shared.now (taking S.taken S.failed sink.old sink.new) result }
{
    let text = text_of(alloc, shared)?;
    match sink.write_all(text.as_bytes()) {
        Ok(()) => Ok(()),
        Err(_) => Err(ReportFault::Output),
    }
}
