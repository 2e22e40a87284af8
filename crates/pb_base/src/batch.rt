//! What a script's transaction writes. It is tested once, where it is made, so that no step of the table tests it
//! again.
ghost use Rattle.std.specs.Prelude.{◌≡◌};
ghost use Rattle.std.specs.List.{list_all};
ghost use Rattle.pb_base.specs.Batch.{writes_of, content_in, is_unstamped, is_data_write, are_distinct};

use crate::cell::Cell;
use crate::content::Content;
use crate::limits::MAX_CELLS;
use crate::names::{Column, Row};
use crate::refusal::NoMemory;
use std::marker::Model;

/// The writes of a script transaction: 1 to 16 distinct data cells, each with a value or deleted.
#[derive(Drop)]
pub struct Batch {
    writes: Vec<(Row, Column, Content)>,
}

impl Model for Batch {
    ghost use Rattle.pb_base.specs.declared.cell.Cell.{Cell};
    ghost use Rattle.pb_base.specs.declared.content.Content.{Content};
    ghost use Rattle.std.specs.Prelude.{List};

    ghost Value = { List (Cell × Content) };

    ghost use Rattle.std.specs.Prelude.{◌≡◌, true};
    ghost use Rattle.pb_base.specs.Batch.{writes_of, is_batch};

    ghost view = { λ b. writes_of b.writes.items };

    ghost invariant = { λ b. is_batch (writes_of b.writes.items) ≡ true };
}

// What the writes give a cell: the first that names it. In a batch that is the only one, since its cells are distinct.
fn content_in(writes: &[(Row, Column, Content)], cell: Cell) -> Option<Content>
    ensures { result ≡ content_in (writes_of writes.now) cell }
{
    for write in writes {
        if cell == Cell::Data(write.0, write.1) {
            return Some(write.2);
        }
    }
    None
}

// Whether a script may write it. A stamp it may not, since that is an observer's acknowledgment.
fn is_plain(content: Content) -> bool
    ensures { result ≡ is_unstamped content }
{
    match content {
        Content::Value(_) => true,
        Content::Deleted => true,
        Content::Stamp(_) => false,
    }
}

// Whether a script may write each of them.
fn are_plain(writes: &[(Row, Column, Content)]) -> bool
    ensures { result ≡ list_all is_data_write (writes_of writes.now) }
{
    for write in writes {
        if !is_plain(write.2) {
            return false;
        }
    }
    true
}

// Whether no cell is named twice: each is looked for among those after it, which takes no memory.
fn are_distinct(writes: &[(Row, Column, Content)]) -> bool
    ensures { result ≡ are_distinct (writes_of writes.now) }
{
    match writes {
        [] => true,
        [first, rest @ ..] => {
            content_in(rest, Cell::Data(first.0, first.1)).is_none() && are_distinct(rest)
        }
    }
}

impl Batch {
    ghost use Rattle.std.specs.Prelude.{◌≡◌, ◌≢◌, ◌↔◌, ◌<◌, ◌≤◌, [], IsTrue, IsOk, IfOk, IfErr, OnOk, length, slice_get, Some, true};
    ghost use Rattle.pb_base.specs.Batch.{writes_of, is_batch, content_in, primary_in};

    /// A batch of these writes, if they are 1 to 16 distinct data cells without a stamp; else they are handed back.
    pub fn new(writes: Vec<(Row, Column, Content)>) -> Result<Batch, Vec<(Row, Column, Content)>>
        ensures accepted { IsOk result ↔ (is_batch (writes_of writes.items) ≡ true) }
        ensures ok { IfOk result (λ b. b ≡ writes_of writes.items) }
        ensures handed_back { IfErr result (λ ws. ws ≡ writes) }
    {
        // The number is tested before the cells are compared, since each is compared with all after
        // it, by a call for each.
        let is_batch = !writes.is_empty()
            && writes.len() <= MAX_CELLS
            && are_plain(&writes)
            && are_distinct(&writes);
        if is_batch {
            Ok(Batch { writes })
        } else {
            Err(writes)
        }
    }

    /// How many cells it writes: 1 to 16.
    pub fn len(&self) -> usize
        ensures count { result ≡ length self.now }
        ensures some { 0 < result }
        ensures few { result ≤ MAX_CELLS }
    {
        self.writes.len()
    }

    /// It has some cells, each named once. It does nothing: a caller's proof learns by it what the type keeps.
    pub fn known(&self)
        ensures some { self.now ≢ [] }
        ensures batch { is_batch self.now ≡ true }
    {
        // For the proof: opens the value, whose invariant says it.
        let _ = &self.writes;
    }

    /// The cell at a place, and what is written to it.
    pub fn at(&self, place: usize) -> (Cell, Content)
        requires { place < length self.now }
        ensures { slice_get self.now place ≡ Some result }
    {
        let write = &self.writes[place];
        (Cell::Data(write.0, write.1), write.2)
    }

    /// What is written to a cell.
    pub fn content(&self, cell: Cell) -> Option<Content>
        ensures { result ≡ content_in self.now cell }
    {
        content_in(&self.writes, cell)
    }

    /// The first cell, whose write record decides for the whole transaction.
    pub fn primary(&self) -> Cell
        ensures { primary_in self.now ≡ Some result }
    {
        let first = &self.writes[0];
        Cell::Data(first.0, first.1)
    }

    /// Another of the same writes. Each try of a change takes one, since the change may have to be tried again.
    pub fn copy(&self) -> Result<Batch, NoMemory>
        ensures { IfOk result (λ b. b ≡ self.now) }
    {
        let writes = self.writes.clone()?;
        Ok(Batch { writes })
    }
}
