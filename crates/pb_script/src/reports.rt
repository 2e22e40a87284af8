//! The report of a history: what is newest at each data cell, and what is left to do. It takes writes and counts from
//! anywhere, so that its lines are defined without a table.
mod lines;
mod newest;
mod tally;

ghost use Rattle.std.specs.Prelude.{◌≡◌, ℕ, List, IfOk, string_bytes};
ghost use Rattle.pb_script.specs.Reports.{AreNewest, IsReport, AreApart};
ghost use Rattle.pb_script.specs.ReportLines.{Tallies};
ghost use Rattle.pb_script.specs.declared.reports.newest.Put.{Put};

use crate::reports::newest::cell_lines;
use crate::reports::tally::run_lines;
pub use lines::{Newest, add_cell_line, digits_of, last_line};
pub use newest::{Put, note};
use pb_base::{Cell, NoMemory};
use std::alloc::Global;
use std::collections::BTreeMap;
pub use tally::Tally;

/// The report of the committed writes that the table has the newest of, and of these runs, with so many marks and locks
/// left. It has a line for each data cell, rising by row and column, of its write with the greatest commit; then a line for
/// each observer with its number of runs; then the last line.
pub fn report_of(
    alloc: Global,
    table: &BTreeMap<Cell, Newest>,
    tallies: &[Tally],
    marks: usize,
    locks: usize,
) -> Result<String, NoMemory>
    ensures { (puts : List Put) → AreNewest puts table.now
        → IfOk result (λ s. IsReport puts tallies.now marks locks (string_bytes s)) }
{
    let mut text = cell_lines(alloc, table)?;
    let runs = run_lines(alloc, tallies)?;
    text.push_str(runs.as_str())?;
    let last = last_line(alloc, marks, locks)?;
    text.push_str(last.as_str())?;
    Ok(text)
}

/// Where no cell has two writes of one commit, there is only one report: the lines leave nothing open.
pub fn one_report()
    ensures { (puts : List Put) (runs : Tallies) (marks locks : ℕ) (s t : List ℕ) → AreApart puts
        → IsReport puts runs marks locks s → IsReport puts runs marks locks t → s ≡ t }
{}
