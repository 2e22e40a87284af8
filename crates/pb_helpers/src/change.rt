//! The record of a change, which a program reads at the address in R1.
ghost use Rattle.std.specs.Prelude.{◌≡◌, ◌<◌, ◌≤◌, ◌↔◌, IsTrue, length, take, drop};
ghost use Rattle.pb_isa.specs.Machine.{reply_bytes};
ghost use Rattle.pb_helpers.specs.Bytes.{size_of, is_second, padded};
ghost use Rattle.pb_helpers.specs.OldRecord.{is_value, record_with_old, record_by};
ghost use Rattle.pb_helpers.specs.Record.{record_of, present, value_bytes, recorded_row, recorded_column};

use pb_base::{COLUMNS, Cell, Column, Content, Revision, Row, Ts, Value};
use pb_isa::{MAX_RECORD_BYTES, RECORD_BYTES};
use std::marker::Model;

/// Which record a program gets. A program is judged for one, since it may load only bytes that the
/// record has.
#[derive(Clone, Copy, PartialEq, Eq)]
pub enum Version {
    First,
    Second,
}

/// The change record: the bytes that show a program which change it runs for. Six numbers stand
/// first, in 8 bytes each with the lowest first. Row and column are at 0 and 8, the change's start
/// and commit at 16 and 24, 1 for a value or 0 for a deletion at 32, and the acknowledged timestamp
/// (0 for none) at 40. At 48 stands the value, or zeros. In version 2 there also stands at 80 a 1
/// or 0 for whether the cell had a value at the acknowledged timestamp, and at 88 that value, or
/// zeros. It is a cell's: its column is 0 to 15.
#[derive(Drop)]
pub struct Record {
    // How many bytes it has.
    size: usize,
    // They stand here and not in a list, so that a record takes no memory of its own. Zeros follow up to the most that
    // one has, so that a machine loads from both versions alike.
    bytes: [u8; MAX_RECORD_BYTES],
}

impl Model for Record {
    ghost use Rattle.std.specs.Prelude.{ℕ, List, take};
    ghost use Rattle.pb_helpers.specs.Bytes.{IsFilled};

    ghost Value = { List ℕ };

    ghost view = { λ r. take r.size r.bytes };

    ghost use Rattle.std.specs.Prelude.{◌<◌};
    ghost use Rattle.pb_base.specs.declared.limits.TheConstants.{COLUMNS};
    ghost use Rattle.pb_helpers.specs.Record.{recorded_column};

    ghost invariant = { λ r. (recorded_column (take r.size r.bytes) < COLUMNS) × IsFilled r.size r.bytes };
}

// The word at 32. A stamp counts as no value, since only an acknowledgment has one, and no observer
// is notified of those.
fn present(content: Content) -> u64
    ensures { result ≡ present content }
{
    match content {
        Content::Value(_) => 1,
        Content::Deleted | Content::Stamp(_) => 0,
    }
}

// The bytes at 48.
fn value_of(content: Content) -> Value
    ensures { result ≡ value_bytes content }
{
    match content {
        Content::Value(value) => value,
        Content::Deleted | Content::Stamp(_) => [0; 32],
    }
}

// The bytes of version 1, with zeros up to the most that a record has.
fn first_bytes(cell: Cell, found: &Revision, acknowledged: Ts) -> [u8; MAX_RECORD_BYTES]
    ensures record { result ≡ padded (record_of cell found.now acknowledged.0) }
    ensures in_range { recorded_column (record_of cell found.now acknowledged.0) < COLUMNS }
    ensures size { length (record_of cell found.now acknowledged.0) ≡ RECORD_BYTES }
{
    // From the last to the first, so that the place of each part is known, whatever stands after it.
    let mut first = [0; MAX_RECORD_BYTES];
    first[48..80].copy_from_slice(&value_of(found.content));
    first[40..48].copy_from_slice(&acknowledged.0.to_le_bytes());
    first[32..40].copy_from_slice(&present(found.content).to_le_bytes());
    first[24..32].copy_from_slice(&found.commit.0.to_le_bytes());
    first[16..24].copy_from_slice(&found.start.0.to_le_bytes());
    first[8..16].copy_from_slice(&u64::from(cell.column().number()).to_le_bytes());
    first[..8].copy_from_slice(&cell.row().0.to_le_bytes());
    first
}

// The word at 80.
fn flag_of(old: Option<Value>) -> u64
    ensures { result ≡ is_value old }
{
    match old {
        Some(_) => 1,
        None => 0,
    }
}

// The bytes at 88.
fn old_value(old: Option<Value>) -> Value
    ensures { result ≡ reply_bytes old }
{
    match old {
        Some(value) => value,
        None => [0; 32],
    }
}

// The bytes of version 2.
fn second_bytes(
    cell: Cell,
    found: &Revision,
    acknowledged: Ts,
    old: Option<Value>,
) -> [u8; MAX_RECORD_BYTES]
    ensures record { result ≡ padded (record_with_old cell found.now acknowledged.0 old) }
    ensures in_range { recorded_column (record_with_old cell found.now acknowledged.0 old)
        < COLUMNS }
    ensures size { length (record_with_old cell found.now acknowledged.0 old) ≡ MAX_RECORD_BYTES }
{
    // The bytes of version 1 stand in front. What follows them is written from the last part to the first, as there.
    let mut bytes = first_bytes(cell, found, acknowledged);
    bytes[88..].copy_from_slice(&old_value(old));
    bytes[80..88].copy_from_slice(&flag_of(old).to_le_bytes());
    bytes
}

impl Version {
    /// Whether it shows what the cell held at the acknowledged timestamp.
    pub fn tells_old(self) -> bool
        ensures { result ≡ is_second self }
    {
        matches!(self, Version::Second)
    }
}

impl Record {
    /// The record of a cell's version, for a run whose observer has acknowledged the changes up to a timestamp.
    pub fn new(cell: Cell, found: &Revision, acknowledged: Ts) -> Record
        ensures record { result ≡ record_of cell found.now acknowledged.0 }
        ensures size { length result ≡ RECORD_BYTES }
    {
        Record {
            size: RECORD_BYTES,
            bytes: first_bytes(cell, found, acknowledged),
        }
    }

    /// The record of version 2, which also shows the value that the cell had at the acknowledged
    /// timestamp, if it had one.
    pub fn with_old(cell: Cell, found: &Revision, acknowledged: Ts, old: Option<Value>) -> Record
        ensures record { result ≡ record_with_old cell found.now acknowledged.0 old }
        ensures size { length result ≡ MAX_RECORD_BYTES }
    {
        Record {
            size: MAX_RECORD_BYTES,
            bytes: second_bytes(cell, found, acknowledged, old),
        }
    }

    /// The record of a version: in version 1 without what the cell held at the acknowledged timestamp.
    pub fn of_version(
        version: Version,
        cell: Cell,
        found: &Revision,
        acknowledged: Ts,
        old: Option<Value>,
    ) -> Record
        ensures record { result ≡ record_by (is_second version) cell found.now acknowledged.0 old }
        ensures size { length result ≡ size_of version }
    {
        match version {
            Version::First => Record::new(cell, found, acknowledged),
            Version::Second => Record::with_old(cell, found, acknowledged, old),
        }
    }

    // The words of 8 bytes from the first byte on: row and column.
    fn first_words(&self) -> ([u8; 8], [u8; 8])
        ensures row { result.0 ≡ take 8 self.now }
        ensures column { result.1 ≡ take 8 (drop 8 self.now) }
        ensures in_range { recorded_column self.now < COLUMNS }
    {
        let bytes = self.bytes();
        let mut row = [0; 8];
        row.copy_from_slice(&bytes[..8]);
        let mut column = [0; 8];
        column.copy_from_slice(&bytes[8..16]);
        (row, column)
    }

    /// The row of its cell.
    pub fn row(&self) -> Row
        ensures { result.0 ≡ recorded_row self.now }
    {
        Row(u64::from_le_bytes(self.first_words().0))
    }

    /// The column of its cell.
    pub fn column(&self) -> Column
        ensures column { result ≡ recorded_column self.now }
        ensures in_range { recorded_column self.now < COLUMNS }
    {
        // The column is in range by the record's invariant, so that the cast cuts nothing, and there always is one.
        match Column::new(u64::from_le_bytes(self.first_words().1) as u8) {
            Some(column) => column,
            None => unreachable!(),
        }
    }

    /// Of which version it is.
    pub fn version(&self) -> Version
        ensures { length self.now ≡ size_of result }
    {
        if self.size == RECORD_BYTES {
            Version::First
        } else {
            Version::Second
        }
    }

    /// Its bytes: 80 or 120.
    pub fn bytes(&self) -> &[u8]
        ensures bytes { result.now ≡ self.now }
        ensures some { RECORD_BYTES ≤ length self.now }
        ensures most { length self.now ≤ MAX_RECORD_BYTES }
        ensures in_range { recorded_column self.now < COLUMNS }
    {
        &self.bytes[..self.size]
    }

    /// Its bytes, with zeros up to the most that a record has. A machine loads from these, so that its memory is of one
    /// size for both versions.
    pub fn padded(&self) -> &[u8; MAX_RECORD_BYTES]
        ensures { result.now ≡ padded self.now }
    {
        &self.bytes
    }

    /// Whether both have the same bytes. Records of two versions never do, since they differ in number.
    pub fn is_same(&self, other: &Record) -> bool
        ensures { IsTrue result ↔ (self.now ≡ other.now) }
    {
        *self.bytes() == *other.bytes()
    }
}
