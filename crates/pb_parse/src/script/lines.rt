//! A line of operations, which is one transaction, and a text of lines, with the laws of what they are read as.
ghost use Rattle.std.specs.Prelude.{◌≡◌, ◌==◌, ◌↔◌, ◌∷◌, true, is_some, ℕ, List, [], Ok, Err};
ghost use Rattle.pb_base.specs.Batch.{Writes, writes_of, content_in, is_batch};
ghost use Rattle.pb_reading.specs.Faults.{ReadsLine, ReadsText, StopsAt};
ghost use Rattle.pb_parse.specs.Codes.{script_code};
ghost use Rattle.pb_parse.specs.ScriptLines.{Batches, cut, operations_left, with_operation, batch_of, with_line, script_of};
ghost use Rattle.pb_parse.specs.Operations.{Say, StopsWith};
ghost use Rattle.pb_parse.specs.Scripts.{AreBatches};

use crate::script::code::ScriptCode;
use crate::script::words::{Change, operation};
use pb_base::{Batch, Cell, MAX_CELLS, MAX_CHANGES};
use pb_reading::{LineFault, TextFault as ScriptFault, first_line, is_skipped};
use std::alloc::Global;

// Whether an operation before names the cell.
fn names(writes: &[Change], cell: Cell) -> bool
    ensures { result ≡ is_some (content_in (writes_of writes.now) cell) }
{
    for write in writes {
        if cell == Cell::Data(write.0, write.1) {
            return true;
        }
    }
    false
}

// Takes one more operation of a line.
#[tactic(auto, unfolding(crate::specs::ScriptLines::with_operation))]
fn add(writes: &mut Vec<Change>, text: &str) -> Result<(), LineFault<ScriptCode>>
    ensures { ReadsLine (λ _. writes_of writes.new.items) result
        (with_operation (writes_of writes.old.items) text.now) }
{
    let write = operation(text).map_err(LineFault::Code)?;
    // Before the count, so that a 17th operation that names a cell of the line again is 73 and not 74.
    if names(writes, Cell::Data(write.0, write.1)) {
        return Err(LineFault::Code(ScriptCode::Twice));
    }
    if writes.len() >= MAX_CELLS {
        return Err(LineFault::Code(ScriptCode::Seventeenth));
    }
    writes.push(write)?;
    Ok(())
}

/// The first operation of a line, and what stands after its `; `, if it has one.
pub fn first_operation(line: &str) -> (&str, Option<&str>)
    ensures { cut line.now ≡ result.0.now ∷ operations_left result.1 }
{
    match line.split_once("; ") {
        Some((operation, after)) => (operation, Some(after)),
        None => (line, None),
    }
}

// What its operations write, which are joined by `; `. Room is made for one, since most lines have no more.
fn writes_in(alloc: Global, line: &str) -> Result<Vec<Change>, LineFault<ScriptCode>>
    ensures { ReadsLine (λ v. writes_of v.items) result (batch_of line.now) }
{
    let mut writes = Vec::with_capacity(alloc, 1)?;
    let mut rest = line;
    while let Some((first, after)) = rest.split_once("; ") {
        add(&mut writes, first)?;
        rest = after;
    }
    add(&mut writes, rest)?;
    Ok(writes)
}

/// The transaction that a line is, by its first operation at fault where it is none.
pub fn batch_of(alloc: Global, line: &str) -> Result<Batch, LineFault<ScriptCode>>
    ensures { ReadsLine (λ b. b) result (batch_of line.now) }
{
    match Batch::new(writes_in(alloc, line)?) {
        Ok(batch) => Ok(batch),
        // What is read has 1 to 16 distinct data cells, so that it is a batch.
        Err(_) => unreachable!(),
    }
}

// Adds what one line asks for.
#[tactic(auto, unfolding(crate::specs::ScriptLines::with_line))]
fn add_line(
    alloc: Global,
    batches: &mut Vec<Batch>,
    line: &str,
) -> Result<(), LineFault<ScriptCode>>
    ensures { ReadsLine (λ _. batches.new.items) result
        (with_line batches.old.items line.now) }
{
    if is_skipped(line) {
        return Ok(());
    }
    let batch = batch_of(alloc, line)?;
    // After the line is read, since 75 comes last of its faults.
    if batches.len() >= MAX_CHANGES {
        return Err(LineFault::Code(ScriptCode::TooMany));
    }
    batches.push(batch)?;
    Ok(())
}

/// The transactions of a script, one per line: operations joined by `; `, each `put ROW COL HEX` or
/// `del ROW COL`. For another text it returns the first line at fault, from 1, with its code: 70
/// not of the form, 71 row or column out of range, 72 not 2 to 64 lower-case hexadecimal digits,
/// even in number, 73 a cell named before in the line, 74 a 17th cell, 75 over 10,000 changes. If
/// memory ran out it is line 0 with code 1.
pub fn parse_script(alloc: Global, text: &str) -> Result<Vec<Batch>, ScriptFault>
    ensures { ReadsText (λ v. v.items) result (script_of text.now) }
{
    let mut batches = Vec::new(alloc);
    let mut index = 0;
    let mut left = Some(text);
    while let Some(lines) = left {
        let (line, after) = first_line(lines);
        match add_line(alloc, &mut batches, line) {
            Ok(()) => {}
            Err(LineFault::NoMemory(e)) => return Err(ScriptFault::NoMemory(e)),
            Err(LineFault::Code(code)) => return Err(ScriptFault::at(index, code.code())),
        }
        index += 1;
        left = after;
    }
    Ok(batches)
}

/// The fault that is returned is that of the first line at fault: the lines before it are a script
/// of their own.
pub fn fault_is_first()
    ensures { (text : List ℕ) (line code : ℕ) → script_of text ≡ Err (line, code)
        → StopsAt script_code with_line [] text line code }
{}

/// What a script is read as is at most 10,000 transactions, each of them a batch: 1 to 16 distinct cells.
pub fn reads_batches()
    ensures { (text : List ℕ) (batches : Batches) → script_of text ≡ Ok batches
        → AreBatches batches }
{}

/// A line is read as a transaction exactly where each of its operations is read, and what they write is a batch; the
/// transaction is then what they write, in their order.
pub fn reads_operations()
    ensures { (line : List ℕ) (batch : Writes) → (batch_of line ≡ Ok batch)
        ↔ (Say (cut line) batch × (is_batch batch ≡ true)) }
{}

/// The fault of a line is that of its first operation at fault: those before it are read, of distinct cells. It is the
/// operation's own (70, 71 or 72), or else 73 where one before it names its cell, or else 74 where there are 16 before it.
pub fn operation_fault_is_first()
    ensures { (line : List ℕ) (cause : ScriptCode) → batch_of line ≡ Err cause
        → StopsWith line cause }
{}
