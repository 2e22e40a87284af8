//! Lines of an input, as they come.
ghost use Rattle.std.specs.Prelude.{◌≡◌, ◌≤◌, ◌<◌, ◌||◌, ℕ, Bool, List, Option, None, length, nat_lt, IfOk, IfSome, OnOk, OnErr};
ghost use Rattle.std.specs.List.{position_or_len};
ghost use Rattle.std.specs.Io.KnownBytes.{Keeps};
ghost use Rattle.pb_keep.specs.Input.{is_newline, is_of_reader, IsLineRead, IsReadSoFar, HoldsMore, TakesPiece, TakesPartOfLine};
ghost use Rattle.pb_keep.specs.declared.lines.Piece.TheVariants.{Part};
ghost use Rattle.pb_requests.specs.declared.parse.TheConstants.{MAX_LINE};

use crate::source::{InputFault, LineSource};
use pb_requests::MAX_LINE;
use std::alloc::AllocError;
use std::io::BufRead;
use std::sync::Wait;

/// What was read of an input.
#[derive(Clone, Copy)]
pub enum Line {
    /// A whole line, without its newline.
    Read,
    /// A line of more bytes than one may have. All of it was read, and none of it is there.
    TooLong,
    /// The input has ended. What stands after its last newline is no line, since who sent it may have stopped within one.
    End,
}

/// What was taken of an input at once.
#[derive(Clone, Copy)]
pub enum Piece {
    /// Bytes of a line that goes on.
    Part,
    /// The last bytes of a line, and its newline.
    Last,
    /// Nothing, since the input has ended.
    End,
}

// How many bytes of a line stand here, and whether its newline follows them.
fn front_of(bytes: &[u8]) -> (usize, bool)
    ensures count { result.0 ≡ position_or_len is_newline bytes.now }
    ensures whole { result.1 ≡ nat_lt result.0 (length bytes.now) }
{
    match bytes.iter().position(|b| *b == b'\n') {
        Some(place) => (place, true),
        None => (bytes.len(), false),
    }
}

// Holds more of a line, or none of it once it is too long.
fn add_bytes(line: &mut Vec<u8>, is_long: &mut bool, more: &[u8]) -> Result<(), AllocError>
    ensures held { OnOk result (HoldsMore more.now line.old.items is_long.old
        line.new.items is_long.new) }
    ensures short { length line.old.items ≤ MAX_LINE → length line.new.items ≤ MAX_LINE }
{
    if more.len().saturating_add(line.len()) > MAX_LINE {
        *is_long = true;
        line.clear();
    }
    if !*is_long {
        line.extend_from_slice(more)?;
    }
    Ok(())
}

/// Takes what a reader has at hand of a line.
pub(crate) fn take_piece<I: BufRead>(
    input: &mut I,
    line: &mut Vec<u8>,
    is_long: &mut bool,
) -> Result<Piece, InputFault>
    ensures took { IfOk result (λ piece. TakesPiece piece (I.remaining input.old)
        (I.remaining input.new) line.old.items is_long.old line.new.items is_long.new) }
    ensures short { length line.old.items ≤ MAX_LINE → length line.new.items ≤ MAX_LINE }
    ensures err { OnErr result (Keeps (I.remaining input.old) (I.remaining input.new)) }
{
    let bytes = input.fill_buf()?;
    if bytes.is_empty() {
        return Ok(Piece::End);
    }
    let (count, is_whole) = front_of(bytes);
    add_bytes(line, is_long, &bytes[..count])?;
    if is_whole {
        input.consume(count + 1);
        return Ok(Piece::Last);
    }
    input.consume(count);
    Ok(Piece::Part)
}

// What was read once this piece was taken, if it was the last.
fn line_after(piece: Piece, is_long: bool, line: &[u8]) -> Option<Line>
    ensures read { (from between to : Option (List ℕ)) (before : List ℕ) (was_long : Bool)
        → IsReadSoFar from between before was_long
        → TakesPiece piece between to before was_long line.now is_long
        → IfSome result (λ r. IsLineRead r line.now from to) }
    ensures more { result ≡ None → piece ≡ Part }
{
    match piece {
        Piece::Part => None,
        Piece::Last if is_long => Some(Line::TooLong),
        Piece::Last => Some(Line::Read),
        Piece::End => Some(Line::End),
    }
}

/// Reads a line, of which no more is held than one may have. What stands after the last newline of an input is none.
pub fn read_line<R: Wait, I: LineSource>(
    rt: &R,
    input: &mut I,
    line: &mut Vec<u8>,
) -> Result<Line, InputFault>
    ensures read { IfOk result
        (λ r. IsLineRead r line.new.items (I.remaining input.old) (I.remaining input.new)) }
    ensures short { length line.new.items ≤ MAX_LINE }
    ensures err { OnErr result (TakesPartOfLine (I.remaining input.old) (I.remaining input.new)) }
    ensures fails { I.failed input.new ≡ (I.failed input.old || is_of_reader result) }
{
    line.clear();
    let mut is_long = false;
    for _turn in rt.forever() {
        let piece = input.take_piece(line, &mut is_long)?;
        if let Some(read) = line_after(piece, is_long, line.as_slice()) {
            return Ok(read);
        }
    }
    unreachable!()
}
