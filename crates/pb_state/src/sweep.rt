//! A mark is taken off a cell once all observers of its column are up to date on it.
ghost use Rattle.std.specs.Prelude.{◌≡◌, ◌≤◌, length, IfOk, OnErr, MatchBool, None};
ghost use Rattle.std.specs.FinMap as map;
ghost use Rattle.pb_base.specs.declared.limits.TheConstants.{MAX_OBSERVERS};
ghost use Rattle.pb_history.specs.Sound.{IsSoundTable, HasData};
ghost use Rattle.pb_steps.specs.Marks.{is_marked, SomeBehind, AllUpToDate};
ghost use Rattle.pb_steps.specs.Steps.{step_reason, TableStep};
ghost use Rattle.pb_store.specs.Contents.{Contents, AreEdits, after_edits, ComesAfter};
ghost use Rattle.pb_state.specs.Behind.{IsNewestStamp, IsLate, IsOnTime, SomeLate, AreOnTime};

use crate::parts::Parts;
use crate::readings::{LAST, version_of};
use pb_accepted::Observer;
use pb_base::{Cell, Column, NoMemory, ObserverNo, Row, Ts};
use pb_steps::{Answer, Step, stamp_of};
use pb_store::{Edit, Table, Tablet};
use std::cmp::Ordering;

// A cell of the row before, or none, where a walk begins with the first mark of all.
fn row_before(cell: &Cell) -> Option<Cell>
    ensures { ComesAfter result cell.now }
{
    let row = cell.row();
    if row.0 == 0 {
        return None;
    }
    Some(Cell::Data(Row(row.0 - 1), cell.column()))
}

// Whether the cell is marked. It is found by a walk, since a table returns the first mark after a
// cell, and not whether one stands on it. The walk begins at the row before, and so meets few other
// marks.
fn is_marked<T: Tablet>(table: &Table<T>, cell: &Cell) -> bool
    ensures { result ≡ is_marked table.now.contents.marks cell.now }
{
    let mut last = row_before(cell);
    while let Some(next) = table.next_mark(last) {
        match next.cmp(cell) {
            Ordering::Less => last = Some(next),
            Ordering::Equal => return true,
            Ordering::Greater => return false,
        }
    }
    false
}

// The stamp of the newest version of an acknowledgment, 0 where it has none.
fn newest_stamp<T: Tablet>(table: &Table<T>, acknowledgment: &Cell) -> Ts
    requires { HasData table.now.contents.entries }
    ensures { IsNewestStamp table.now.contents.entries acknowledgment.now result.0 }
{
    match version_of(table, acknowledgment, LAST) {
        Some(version) => stamp_of(version.content),
        None => Ts(0),
    }
}

// Whether an observer of this number is one of the column and has acknowledged less than the commit in the row.
fn is_late<T: Tablet>(
    table: &Table<T>,
    row: Row,
    column: Column,
    commit: Ts,
    observer: &Observer,
    number: ObserverNo,
) -> bool
    requires { HasData table.now.contents.entries }
    ensures { MatchBool result
        (IsLate table.now.contents.entries row column commit.0 observer.now number)
        (IsOnTime table.now.contents.entries row column commit.0 observer.now number) }
{
    if observer.column != column {
        return false;
    }
    let stamp = newest_stamp(table, &Cell::Ack(number, row, column));
    if stamp.0 < commit.0 {
        return true;
    }
    false
}

// Whether some observer of the column has acknowledged less than the commit in the row.
fn is_any_late<T: Tablet>(
    table: &Table<T>,
    row: Row,
    column: Column,
    commit: Ts,
    observers: &[Observer],
) -> bool
    requires data_stands { HasData table.now.contents.entries }
    requires numbered { length observers.now ≤ MAX_OBSERVERS }
    ensures { MatchBool result
        (SomeLate table.now.contents.entries row column commit.0 observers.now)
        (AreOnTime table.now.contents.entries row column commit.0 observers.now
        (length observers.now)) }
{
    for place in 0..observers.len() {
        // Each place is a number, since there are at most 32 observers.
        let Some(number) = ObserverNo::new(place as u8) else {
            unreachable!()
        };
        if is_late(table, row, column, commit, &observers[place], number) {
            return true;
        }
    }
    false
}

// Whether an observer isn't up to date on the cell. The newest commit is enough, since one that has
// acknowledged it has acknowledged all before.
pub(crate) fn is_behind<T: Tablet>(table: &Table<T>, observers: &[Observer], cell: &Cell) -> bool
    requires data_stands { HasData table.now.contents.entries }
    requires numbered { length observers.now ≤ MAX_OBSERVERS }
    ensures { MatchBool result
        (SomeBehind observers.now table.now.contents.entries cell.now)
        (AllUpToDate observers.now table.now.contents.entries cell.now) }
{
    let Cell::Data(row, column) = *cell else {
        return false;
    };
    let Some(version) = version_of(table, cell, LAST) else {
        return false;
    };
    is_any_late(table, row, column, version.commit, observers)
}

// Takes the mark off. It takes no memory, though `apply` may be refused for all that a contract says.
fn unmark_edits(cell: &Cell) -> [Edit; 1]
    ensures edits { AreEdits result }
    ensures unmarked { (c : Contents) → after_edits result c
        ≡ record c { marks = map.remove c.marks cell.now } }
{
    [Edit::Unmark(*cell)]
}

impl<T: Tablet> Parts<T> {
    #[tactic(auto, using(pb_history::proofs::SoundHasData::keeps_data))]
    pub(crate) fn sweep(&mut self, seat: u32, cell: &Cell) -> Result<Answer, NoMemory>
        requires sound { IsSoundTable self.old }
        requires allowed { step_reason self.old seat (Step.Sweep cell.now) ≡ None }
        ensures taken { IfOk result (λ a. TableStep self.old seat
            (Step.Sweep cell.now) a self.new) }
        ensures same { OnErr result (self.new ≡ self.old) }
    {
        if !is_marked(&self.table, cell) {
            return Ok(Answer::NoMark);
        }
        if is_behind(&self.table, &self.observers, cell) {
            return Ok(Answer::StillBehind);
        }
        self.table.apply(&unmark_edits(cell))?;
        Ok(Answer::Done)
    }
}
