//! The lines of a report, each of its own form.
ghost use Rattle.std.specs.Prelude.{◌≡◌, ◌≤◌, ◌++◌, length, IfOk, OnOk, string_bytes};
ghost use Rattle.hex.specs.Hex.{encode_lower};
ghost use Rattle.pb_script.specs.ReportLines.{trimmed, cell_line, last_line};

use pb_base::{Cell, Content, Ts, Value};
use std::alloc::{AllocError, Global};

/// What was committed at a cell last.
#[derive(Clone, Copy, Debug)]
pub struct Newest {
    pub commit: Ts,
    pub content: Content,
}

// The bytes without zeros at the end, but for the first, so that a value of zeros alone is printed
// as `00`.
fn trim_zeros(bytes: &[u8]) -> &[u8]
    ensures bytes { result.now ≡ trimmed bytes.now }
    ensures no_longer { length result.now ≤ length bytes.now }
{
    let Some((last, front)) = bytes.split_last() else {
        return bytes;
    };
    if *last != 0 {
        return bytes;
    }
    if front.is_empty() {
        return bytes;
    }
    trim_zeros(front)
}

/// Two hexadecimal digits for each byte of a value, but for the zeros at its end; at least one byte
/// is shown. They are written into room of the caller's on the stack, so that a line takes no
/// memory but its text's.
pub fn digits_of<'a>(value: &Value, room: &'a mut [u8; 64]) -> &'a str
    ensures { result.now ≡ encode_lower (trimmed value.now) }
{
    let bytes = trim_zeros(value);
    let digits = &mut room[..2 * bytes.len()];
    if hex::encode_to_slice(bytes, digits).is_err() {
        // The room has two digits for each byte, so that it fits.
        unreachable!();
    }
    match std::str::from_utf8(digits) {
        Ok(text) => text,
        // Hexadecimal digits are ASCII, so that they are UTF-8.
        Err(_) => unreachable!(),
    }
}

/// Adds the line of a cell.
pub fn add_cell_line(text: &mut String, cell: &Cell, newest: &Newest) -> Result<(), AllocError>
    ensures { OnOk result (string_bytes text.new
        ≡ string_bytes text.old ++ cell_line cell.now newest.now) }
{
    let row = cell.row().0;
    let column = cell.column().number();
    let commit = newest.commit.0;
    match &newest.content {
        Content::Value(value) => {
            let mut room = [0; 64];
            let digits = digits_of(value, &mut room);
            write!(text, "cell {row} {column} commit {commit} value {digits}\n")
        }
        // No data cell has a stamp, so that what isn't a value is a deletion.
        _ => write!(text, "cell {row} {column} commit {commit} deleted\n"),
    }
}

/// The line at the end, on what is left to do.
pub fn last_line(alloc: Global, marks: usize, locks: usize) -> Result<String, AllocError>
    ensures { IfOk result (λ s. string_bytes s ≡ last_line marks locks) }
{
    if marks == 0 && locks == 0 {
        String::from_str(alloc, "quiet\n")
    } else {
        format!(in alloc; "marks {marks} locks {locks}\n")
    }
}
