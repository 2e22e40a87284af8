//! Cells, and what they hold, in words: those of scripts and reports, so that a cell reads alike in all of them.
ghost use Rattle.std.specs.Prelude.{◌≡◌, ◌++◌, OnOk, string_bytes};
ghost use Rattle.pb_story.specs.Cells.{observer_name, cell_text, content_text, write_text, writes_text};

use pb_accepted::Observer;
use pb_base::{Batch, Cell, Content, ObserverNo};
use pb_script::digits_of;
use std::alloc::AllocError;

/// Adds the name of the observer of this number, and nothing where there is none.
pub fn add_name(
    text: &mut String,
    observers: &[Observer],
    number: ObserverNo,
) -> Result<(), AllocError>
    ensures { OnOk result (string_bytes text.new
        ≡ string_bytes text.old ++ observer_name observers.now number) }
{
    match observers.get(number.number() as usize) {
        Some(observer) => text.push_str(observer.name.as_str()),
        None => text.push_str(""),
    }
}

/// Adds a cell: its row and column, and before those of an acknowledgment its observer.
pub fn add_cell(text: &mut String, observers: &[Observer], cell: &Cell) -> Result<(), AllocError>
    ensures { OnOk result (string_bytes text.new
        ≡ string_bytes text.old ++ cell_text observers.now cell.now) }
{
    let row = cell.row().0;
    let column = cell.column().number();
    match cell {
        Cell::Data(..) => write!(text, "{row} {column}"),
        Cell::Ack(observer, ..) => {
            text.push_str("ack ")?;
            add_name(text, observers, *observer)?;
            write!(text, " {row} {column}")
        }
    }
}

/// Adds what a cell holds.
pub fn add_content(text: &mut String, content: &Content) -> Result<(), AllocError>
    ensures { OnOk result (string_bytes text.new
        ≡ string_bytes text.old ++ content_text content.now) }
{
    match content {
        Content::Value(value) => {
            let mut room = [0; 64];
            let digits = digits_of(value, &mut room);
            write!(text, "value {digits}")
        }
        Content::Deleted => text.push_str("deleted"),
        Content::Stamp(stamp) => {
            let stamp = stamp.0;
            write!(text, "stamp {stamp}")
        }
    }
}

// Adds a write after a semicolon.
fn add_write(
    text: &mut String,
    observers: &[Observer],
    cell: &Cell,
    content: &Content,
) -> Result<(), AllocError>
    ensures { OnOk result
        (string_bytes text.new ≡ string_bytes text.old ++ write_text observers.now
        (cell.now, content.now)) }
{
    text.push_str("; ")?;
    add_cell(text, observers, cell)?;
    text.push_str(" ")?;
    add_content(text, content)
}

/// Adds the writes of a batch, each after a semicolon.
pub fn add_batch(text: &mut String, observers: &[Observer], batch: &Batch) -> Result<(), AllocError>
    ensures { OnOk result (string_bytes text.new
        ≡ string_bytes text.old ++ writes_text observers.now batch.now) }
{
    for place in 0..batch.len() {
        let (cell, content) = batch.at(place);
        add_write(text, observers, &cell, &content)?;
    }
    Ok(())
}

/// Adds the writes of a run, each after a semicolon.
pub fn add_writes(
    text: &mut String,
    observers: &[Observer],
    writes: &[(Cell, Content)],
) -> Result<(), AllocError>
    ensures { OnOk result (string_bytes text.new
        ≡ string_bytes text.old ++ writes_text observers.now writes.now) }
{
    for write in writes {
        add_write(text, observers, &write.0, &write.1)?;
    }
    Ok(())
}
