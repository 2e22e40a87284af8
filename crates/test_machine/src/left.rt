//! What a run left, in words.
use crate::moves::add_ask;
use pb_base::{Cell, Content, NoMemory, Value};
use pb_finished::Finished;
use pb_helpers::{Ask, Reply};
use std::alloc::Global;

fn add_value(alloc: Global, text: &mut String, value: &Value) -> Result<(), NoMemory> {
    let digits = hex::encode(alloc, value)?;
    Ok(writeln!(text, " value {digits}")?)
}

fn add_reply(alloc: Global, text: &mut String, said: &(Ask, Reply)) -> Result<(), NoMemory> {
    text.push_str("asked")?;
    add_ask(text, &said.0)?;
    match &said.1 {
        Reply::Found(value) => add_value(alloc, text, value),
        Reply::Absent => Ok(text.push_str(" absent\n")?),
    }
}

fn add_write(alloc: Global, text: &mut String, written: &(Cell, Content)) -> Result<(), NoMemory> {
    let (row, column) = (written.0.row().0, written.0.column().number());
    write!(text, "wrote {row} {column}")?;
    match &written.1 {
        Content::Value(value) => add_value(alloc, text, value),
        Content::Deleted => Ok(text.push_str(" deleted\n")?),
        Content::Stamp(stamp) => Ok(writeln!(text, " stamp {}", stamp.0)?),
    }
}

/// Adds its start and its result, what it asked and was replied, what it wrote, and whether that is nothing at all.
pub fn add_left(alloc: Global, text: &mut String, finished: &Finished) -> Result<(), NoMemory> {
    writeln!(
        text,
        "run {} result {}",
        finished.start().0,
        finished.result()
    )?;
    for said in finished.talk() {
        add_reply(alloc, text, said)?;
    }
    for written in finished.writes() {
        add_write(alloc, text, written)?;
    }
    if finished.is_plain() {
        text.push_str("plain\n")?;
    }
    Ok(())
}
