//! What the observers make of the cells that they are fed with.
use crate::cells::Cells;
use crate::history::{Commits, declared_at};
use crate::script::ROWS;
use pb_base::{Cell, Column, Content, Row, Value};
use pb_history::KeptEntry;
use pb_steps::Declared;

// What a cell of this row holds, if anything was committed there.
fn content_at(cells: &Cells, row: u64, column: u8) -> Option<Content> {
    let cell = Cell::Data(Row(row), Column::new(column)?);
    let version = cells.get(&cell)?;
    Some(version.content)
}

// The value that an observer's record has for a content: zeros for a deletion.
fn value_told(content: Content) -> Value {
    match content {
        Content::Value(value) => value,
        _ => [0; 32],
    }
}

// Whether a transaction is a run that writes to this cell.
fn is_run_on(what: &Declared, cell: &Cell) -> bool {
    match what {
        Declared::Script(_) => false,
        Declared::Run(_, run) => run.get().writes().iter().any(|write| write.0 == *cell),
    }
}

// How many committed runs write to this cell.
fn runs_on(journal: &[KeptEntry], commits: &Commits, row: u64, column: u8) -> u64 {
    let Some(column) = Column::new(column) else {
        return 0;
    };
    let cell = Cell::Data(Row(row), column);
    let mut count: u64 = 0;
    for place in commits.values() {
        if let Some(what) = declared_at(journal, *place)
            && is_run_on(what, &cell)
        {
            count = count.saturating_add(1);
        }
    }
    count
}

// A number, its lowest byte first.
fn number(n: u64) -> Value {
    let bytes = n.to_le_bytes();
    let mut value = [0; 32];
    for place in 0..8 {
        value[place] = bytes[place];
    }
    value
}

// Whether a row is as the observers leave it: column 1 is a copy of column 0, column 15 counts how often column 1 was
// written up to its end, and column 14 is a copy of column 15.
fn is_fed(cells: &Cells, journal: &[KeptEntry], commits: &Commits, row: u64) -> bool {
    let Some(changed) = content_at(cells, row, 0) else {
        return [1, 14, 15]
            .iter()
            .all(|column| content_at(cells, row, *column).is_none());
    };
    let copied = Some(Content::Value(value_told(changed)));
    let counted = Some(Content::Value(number(runs_on(journal, commits, row, 15))));
    let copies = runs_on(journal, commits, row, 1);
    let counts = runs_on(journal, commits, row, 15);
    content_at(cells, row, 1) == copied
        && content_at(cells, row, 15) == counted
        && content_at(cells, row, 14) == counted
        && counts > 0
        && counts <= copies
}

/// Whether each row is as the observers leave it.
pub fn are_fed(cells: &Cells, journal: &[KeptEntry], commits: &Commits) -> bool {
    for row in 0..ROWS {
        if !is_fed(cells, journal, commits, row) {
            return false;
        }
    }
    true
}
