//! The report of a plain map of cells.
use crate::cells::{Cells, Version};
use crate::history::{Commits, runs_of};
use pb_accepted::Observer;
use pb_base::{Cell, Content, Value};
use pb_history::KeptEntry;
use std::alloc::{AllocError, Global};

// How many bytes of a value are printed: those up to the last that isn't zero, and one at least.
fn told_bytes(value: &Value) -> usize {
    let mut count = 1;
    for place in 0..32 {
        if value[place] != 0 {
            count = place + 1;
        }
    }
    count
}

fn add_cell(text: &mut String, cell: &Cell, version: &Version) -> Result<(), AllocError> {
    let (row, column, commit) = (cell.row().0, cell.column().number(), version.commit);
    write!(text, "cell {row} {column} commit {commit} ")?;
    let Content::Value(value) = &version.content else {
        return text.push_str("deleted\n");
    };
    text.push_str("value ")?;
    for byte in value.iter().take(told_bytes(value)) {
        write!(text, "{byte:02x}")?;
    }
    text.push_str("\n")
}

/// The report of these cells and runs, with no mark and no lock left.
pub fn page_of(
    alloc: Global,
    cells: &Cells,
    observers: &[Observer],
    journal: &[KeptEntry],
    commits: &Commits,
) -> Result<String, AllocError> {
    let mut text = String::new(alloc);
    for (cell, version) in cells {
        add_cell(&mut text, cell, version)?;
    }
    for number in 0..observers.len() {
        let observer = &observers[number];
        let name = observer.name.as_str();
        let count = runs_of(journal, commits, number);
        writeln!(text, "runs {name} {count}")?;
    }
    text.push_str("quiet\n")?;
    Ok(text)
}
