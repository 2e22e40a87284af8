//! The answer to `stats`: what the observers have done, and how large the log and the table are.
ghost use Rattle.std.specs.Prelude.{◌≡◌, ◌++◌, IfOk, OnOk, string_bytes};
ghost use Rattle.std.specs.FinMap as map;
ghost use Rattle.pb_answers.specs.Stats.{stats_line, stats_lines, stats_text};

use pb_accepted::Observer;
use pb_base::NoMemory;
use pb_keeper::ObserverStats;
use pb_state::State;
use pb_store::{Table, Tablet};
use std::alloc::{AllocError, Global};

// Adds the line of an observer of this name.
fn add_stats_line(text: &mut String, name: &str, stats: &ObserverStats) -> Result<(), AllocError>
    ensures { OnOk result (string_bytes text.new
        ≡ string_bytes text.old ++ stats_line name.now stats.now) }
{
    let runs = stats.runs;
    let nonzero = stats.nonzero;
    let conflicts = stats.conflicts;
    let asks = stats.asks;
    let instructions = stats.instructions;
    write!(text, "stats {name} runs {runs} nonzero {nonzero}")?;
    write!(
        text,
        " conflicts {conflicts} asks {asks} instructions {instructions}\n"
    )
}

// Adds the lines of the observers, each with its numbers.
fn add_stats_lines(
    text: &mut String,
    observers: &[Observer],
    stats: &[ObserverStats],
) -> Result<(), AllocError>
    ensures { OnOk result (string_bytes text.new
        ≡ string_bytes text.old ++ stats_lines observers.now stats.now) }
{
    let Some((observer, others)) = observers.split_first() else {
        return Ok(());
    };
    let Some((numbers, more)) = stats.split_first() else {
        return Ok(());
    };
    add_stats_line(text, observer.name.as_str(), numbers)?;
    add_stats_lines(text, others, more)
}

// How many entries a table has, with a unit for each.
fn count_entries<T: Tablet>(alloc: Global, table: &Table<T>) -> Result<usize, NoMemory>
    ensures { IfOk result (λ n. n ≡ map.len table.now.contents.entries) }
{
    let mut walked = Vec::new(alloc);
    let mut after = None;
    while let Some((slot, _)) = table.next_entry(after) {
        walked.push(())?;
        after = Some(slot);
    }
    Ok(walked.len())
}

/// How many entries a table has.
pub fn entries_of<T: Tablet>(alloc: Global, state: &State<T>) -> Result<usize, NoMemory>
    ensures { IfOk result (λ n. n ≡ map.len state.now.entries) }
{
    count_entries(alloc, state.table())
}

/// The answer to `stats`: a line for each observer with its numbers, then how many bytes the log has, how many entries the
/// table has, and `end`. The table has no numbers of its own: the caller gives those of its observers, in their order.
pub fn answer_stats<T: Tablet>(
    alloc: Global,
    state: &State<T>,
    stats: &[ObserverStats],
    log: usize,
) -> Result<String, NoMemory>
    ensures { IfOk result (λ s. string_bytes s ≡ stats_text state.now stats.now log) }
{
    let entries = count_entries(alloc, state.table())?;
    let mut text = String::new(alloc);
    add_stats_lines(&mut text, state.observers(), stats)?;
    write!(text, "log {log}\nentries {entries}\nend\n")?;
    Ok(text)
}
