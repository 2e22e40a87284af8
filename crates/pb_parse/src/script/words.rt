//! The words of one operation, from left to right.
ghost use Rattle.std.specs.Prelude.{◌≡◌, ◌<◌, IfOk, false};
ghost use Rattle.std.specs.Char.{is_ascii_uppercase};
ghost use Rattle.std.specs.List.{list_any};
ghost use Rattle.pb_base.specs.declared.cell.Cell.TheVariants.{Data};
ghost use Rattle.pb_reading.specs.Reading.{Gives, words_left};
ghost use Rattle.pb_parse.specs.ScriptWords.{value_of_word, cell_at, put_of, del_of, write_of, operation};

use crate::script::code::ScriptCode;
use pb_base::{COLUMNS, Column, Content, Row, Value};
use pb_reading::{LineWords, numeral_upto};

/// What an operation writes.
pub type Change = (Row, Column, Content);

// The numbers of a cell, until its line is known to have no word more.
#[derive(Clone, Copy, Drop)]
struct CellNumbers {
    row: u64,
    column: u8,
}

impl CellNumbers {
    fn cell(self) -> (Row, Column)
        requires { self.column < COLUMNS }
        ensures { result ≡ (record { 0 = self.row }, self.column) }
    {
        match Column::new(self.column) {
            Some(column) => (Row(self.row), column),
            // Callers read a number up to 15, so that it is a column.
            None => unreachable!(),
        }
    }

    fn with(self, content: Content) -> Change
        requires { self.column < COLUMNS }
        ensures { result ≡ (record { 0 = self.row }, self.column, content) }
    {
        let (row, column) = self.cell();
        (row, column, content)
    }
}

// Whether a letter is upper-case.
fn has_upper(digits: &[u8]) -> bool
    ensures { result ≡ list_any is_ascii_uppercase digits.now }
{
    digits.iter().any(|b| b.is_ascii_uppercase())
}

/// The value that a word writes: up to 32 bytes in lower-case hexadecimal digits, followed by zeros.
pub fn value_of_word(word: &str) -> Result<Value, ScriptCode>
    ensures { Gives (λ _. false) (λ b. b) result (value_of_word word.now) }
{
    // Capitals are looked for here, since `hex` reads them too; an odd number of digits it refuses by itself.
    let digits = word.as_bytes();
    if digits.is_empty() || digits.len() > 64 || has_upper(digits) {
        return Err(ScriptCode::Hex);
    }
    let mut content = [0; 32];
    let count = digits.len() / 2;
    // Into the front alone, so that the bytes that no digit sets stay zero.
    match hex::decode_to_slice(word, &mut content[..count]) {
        Ok(()) => Ok(content),
        Err(_) => Err(ScriptCode::Hex),
    }
}

// A row and a column.
#[tactic(auto, unfolding(crate::specs::ScriptWords::cell_at))]
fn cell_at(words: &mut LineWords) -> Result<CellNumbers, ScriptCode>
    ensures value { Gives (λ _. false)
        (λ x. (Data (record { 0 = x.row }) x.column, words_left words.new.rest)) result
        (cell_at (words_left words.old.rest)) }
    ensures bound { IfOk result (λ x. x.column < COLUMNS) }
{
    let word = words.next_word(ScriptCode::Form)?;
    let row = numeral_upto(ScriptCode::Form, ScriptCode::Range, u64::MAX, word)?;
    let word = words.next_word(ScriptCode::Form)?;
    let column = numeral_upto(
        ScriptCode::Form,
        ScriptCode::Range,
        u64::from(COLUMNS) - 1,
        word,
    )? as u8;
    Ok(CellNumbers { row, column })
}

/// A row and a column, as an operation has them after its verb, by the first of them at fault where they are none.
pub fn cell_of(words: &mut LineWords) -> Result<(Row, Column), ScriptCode>
    ensures { Gives (λ _. false) (λ x. (Data x.0 x.1, words_left words.new.rest)) result
        (cell_at (words_left words.old.rest)) }
{
    Ok(cell_at(words)?.cell())
}

#[tactic(auto, unfolding(crate::specs::ScriptWords::put_of))]
fn put_of(words: &mut LineWords) -> Result<Change, ScriptCode>
    ensures { Gives (λ _. false) (λ w. (Data w.0 w.1, w.2)) result
        (put_of (words_left words.old.rest)) }
{
    let place = cell_at(words)?;
    let word = words.next_word(ScriptCode::Form)?;
    let content = value_of_word(word)?;
    words.no_word(ScriptCode::Form)?;
    Ok(place.with(Content::Value(content)))
}

#[tactic(auto, unfolding(crate::specs::ScriptWords::del_of))]
fn del_of(words: &mut LineWords) -> Result<Change, ScriptCode>
    ensures { Gives (λ _. false) (λ w. (Data w.0 w.1, w.2)) result
        (del_of (words_left words.old.rest)) }
{
    let place = cell_at(words)?;
    words.no_word(ScriptCode::Form)?;
    Ok(place.with(Content::Deleted))
}

/// One operation, `put ROW COL HEX` or `del ROW COL`, by its first field at fault where it is none.
#[tactic(auto, unfolding(crate::specs::ScriptWords::write_of))]
pub fn operation(text: &str) -> Result<Change, ScriptCode>
    ensures { Gives (λ _. false) (λ w. (Data w.0 w.1, w.2)) result (operation text.now) }
{
    let mut words = LineWords { rest: Some(text) };
    match words.next_word(ScriptCode::Form)? {
        "put" => put_of(&mut words),
        "del" => del_of(&mut words),
        _ => Err(ScriptCode::Form),
    }
}
