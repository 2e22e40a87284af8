//! Tablets side by side, seen as one: calls of one row go to its tablet, and walks go from tablet to tablet.
ghost use Rattle.std.specs.Prelude.{◌≡◌, ◌<◌, ◌-◌, ◌^◌, min, IfOk, IfErr, OnOk, OnErr, IfSome, None, Some, drop, length, slice_get};
ghost use Rattle.std.specs.FinMap as map;
ghost use Rattle.std.specs.Option.{option_map};
ghost use Rattle.pb_store.specs.Contents.{nothing, is_nothing, after_edits, entries_after, AreEdits, IsOfSort, IsNewest, IsNextMark};
ghost use Rattle.pb_store.specs.TableOf.{TableOf, firsts_of};
ghost use Rattle.pb_store.specs.Tiles.{tiles_of, IsPlace, IsStart, IsTiling, rise_from_zero, all_nothing, table_reason, swap_reason, refusal_or_want, all_entries, joined};
ghost use Rattle.pb_base.specs.Reasons.{TellsReason, refusal_by};

use crate::copy::copy_all;
use crate::slot::{Edit, Item, Slot, Sort};
use crate::tablet::Tablet;
use pb_base::{Cell, NoMemory, Reason, Refusal, Row, Ts};
use std::marker::Model;
use std::mem;

/// Tablets side by side: each has the rows from its first up to the next one's first, the last all the rest.
///
/// A table ends by `close` alone: to let one go in any other way doesn't compile.
pub struct Table<T: Tablet> {
    parts: Vec<(Row, T)>,
}

impl<T: Tablet> Model for Table<T> {
    ghost use Rattle.pb_store.specs.TableOf.{TableOf, table_code, firsts_of};

    ghost Value = { TableOf };

    ghost coded = { table_code };

    ghost use Rattle.pb_store.specs.Tiles.{tiles_of, joined, IsTiling};

    ghost view = { λ t. record { contents = joined (tiles_of T.contents t.parts.items); firsts = firsts_of t.parts.items } };

    ghost invariant = { λ t. IsTiling (tiles_of T.contents t.parts.items) };
}

// The place of the tablet that has the row: the last that begins at or below it, since first rows rise.
fn place_in<T: Tablet>(parts: &[(Row, T)], row: Row) -> usize
    requires { IsTiling (tiles_of T.contents parts.now) }
    ensures within { result < length parts.now }
    ensures place { IsPlace (tiles_of T.contents parts.now) result row.0 }
{
    let mut place = 0;
    for i in 1..parts.len() {
        if parts[i].0.0 <= row.0 {
            place = i;
        }
    }
    place
}

// Whether the first rows rise from 0, so that each row has one tablet.
fn rises<T: Tablet>(parts: &[(Row, T)]) -> bool
    requires { 0 < length parts.now }
    ensures { result ≡ rise_from_zero (tiles_of T.contents parts.now) }
{
    let mut low = parts[0].0.0;
    if low != 0 {
        return false;
    }
    for i in 1..parts.len() {
        let next = parts[i].0.0;
        if next <= low {
            return false;
        }
        low = next;
    }
    true
}

// Whether no tablet has an entry or a mark.
fn are_empty<T: Tablet>(parts: &[(Row, T)]) -> bool
    ensures { result ≡ all_nothing (tiles_of T.contents parts.now) }
{
    for part in parts {
        if !part.1.is_empty() {
            return false;
        }
    }
    true
}

// The place of the first tablet that may have a cell after the given one: that of its row, which has later columns too.
fn start_in<T: Tablet>(parts: &[(Row, T)], after: Option<Cell>) -> usize
    requires { IsTiling (tiles_of T.contents parts.now) }
    ensures within { result < length parts.now }
    ensures place { IsStart (tiles_of T.contents parts.now) result after }
{
    match after {
        Some(cell) => place_in(parts, cell.row()),
        None => 0,
    }
}

// The first marked cell after the given one, or of all. The first tablet that returns one has it,
// since later ones have higher rows.
fn mark_in<T: Tablet>(parts: &[(Row, T)], after: &Option<Cell>) -> Option<Cell>
    requires { IsTiling (tiles_of T.contents parts.now) }
    ensures { IsNextMark (joined (tiles_of T.contents parts.now)).marks after.now result }
{
    for i in start_in(parts, *after)..parts.len() {
        let next = parts[i].1.next_mark(*after);
        if let Some(cell) = next {
            return Some(cell);
        }
    }
    None
}

// The entry at a place, counted from the first tablet on, since the slots of a tablet are below those of the next.
fn entry_in<T: Tablet>(parts: &[(Row, T)], place: usize) -> Option<(Slot, Item)>
    ensures { result ≡ slice_get (all_entries (tiles_of T.contents parts.now)) place }
{
    let mut rest = place;
    for part in parts {
        let count = part.1.len();
        if rest < count {
            return part.1.at(rest);
        }
        rest -= count;
    }
    None
}

// How many entries tablets have together, or the greatest number where they are more.
fn count_in<T: Tablet>(parts: &[(Row, T)]) -> usize
    ensures { result ≡ min (length (all_entries (tiles_of T.contents parts.now))) (2 ^ 64 - 1) }
{
    let Some((first, others)) = parts.split_first() else {
        return 0;
    };
    first.1.len().saturating_add(count_in(others))
}

// The cell of a slot, by whose row a walk over entries finds its first tablet.
fn cell_of(slot: &Option<Slot>) -> Option<Cell>
    ensures { result ≡ option_map (λ s. s.cell) slot.now }
{
    match slot {
        Some(slot) => Some(slot.cell),
        None => None,
    }
}

// The first entry after the slot, or of all, in the first tablet that has one.
fn entry_after<T: Tablet>(parts: &[(Row, T)], after: &Option<Slot>) -> Option<(Slot, Item)>
    requires { IsTiling (tiles_of T.contents parts.now) }
    ensures { result ≡ slice_get (entries_after after.now
        (all_entries (tiles_of T.contents parts.now))) 0 }
{
    for i in start_in(parts, cell_of(after))..parts.len() {
        let next = parts[i].1.next_entry(*after);
        if let Some(entry) = next {
            return Some(entry);
        }
    }
    None
}

// The tablet with all entries and marks taken out, so that its owner may end it.
fn clear_tablet<T: Tablet>(tablet: T) -> T
    ensures { T.contents result ≡ nothing }
{
    let mut tablet = tablet;
    tablet.clear();
    tablet
}

impl<T: Tablet> Table<T> {
    /// The table of tablets made by the caller, each with the first row of its range.
    ///
    /// It takes no memory. Refused it hands the list back: with 2 where it is empty, 3 where the first rows don't
    /// rise from 0, 4 where a tablet isn't empty.
    pub fn new(parts: Vec<(Row, T)>) -> Result<Table<T>, (Vec<(Row, T)>, Refusal)>
        ensures contents { IfOk result (λ table. table.contents ≡ nothing) }
        ensures firsts { IfOk result (λ table. table.firsts ≡ firsts_of parts.items) }
        ensures accepted { OnOk result (table_reason (tiles_of T.contents parts.items) ≡ None) }
        ensures handed_back { IfErr result (λ e. e.0 ≡ parts) }
        ensures refused { IfErr result (λ e. TellsReason
            (table_reason (tiles_of T.contents parts.items)) e.1) }
    {
        if parts.is_empty() {
            return Err((parts, Reason::NoTablet.refusal()));
        }
        if !rises(&parts) {
            return Err((parts, Reason::RowsDontRise.refusal()));
        }
        if !are_empty(&parts) {
            return Err((parts, Reason::NotEmpty.refusal()));
        }
        Ok(Table { parts })
    }

    /// What stands in the slot.
    pub fn get(&self, slot: Slot) -> Option<Item>
        ensures item { result ≡ map.get self.now.contents.entries slot }
        ensures sort { IfSome result (IsOfSort slot.sort) }
    {
        let i = place_in(&self.parts, slot.cell.row());
        self.parts[i].1.get(slot)
    }

    /// The entry of this sort with the greatest timestamp at most `high`.
    pub fn newest(&self, cell: Cell, sort: Sort, high: Ts) -> Option<(Ts, Item)>
        ensures { IsNewest self.now.contents.entries cell sort high result }
    {
        let i = place_in(&self.parts, cell.row());
        self.parts[i].1.newest(cell, sort, high)
    }

    /// The first marked cell after the given one, or of all.
    pub fn next_mark(&self, after: Option<Cell>) -> Option<Cell>
        ensures { IsNextMark self.now.contents.marks after result }
    {
        mark_in(&self.parts, &after)
    }

    /// The entry at a place, counted by rising slot.
    pub fn at(&self, place: usize) -> Option<(Slot, Item)>
        ensures { result ≡ slice_get (map.entries self.now.contents.entries) place }
    {
        entry_in(&self.parts, place)
    }

    /// The first entry after the given slot, or of all. The others stand after it.
    pub fn next_entry(&self, after: Option<Slot>) -> Option<(Slot, Item)>
        ensures entry { result ≡ slice_get (entries_after after
            (map.entries self.now.contents.entries)) 0 }
        ensures rest { IfSome result (λ e. entries_after (Some e.0)
            (map.entries self.now.contents.entries) ≡ drop 1
            (entries_after after (map.entries self.now.contents.entries))) }
    {
        entry_after(&self.parts, &after)
    }

    /// How many tablets it has.
    pub fn places(&self) -> usize
        ensures places { result ≡ length self.now.firsts }
        ensures some { 0 < result }
    {
        self.parts.len()
    }

    /// How many entries it has, marks not counted, or the greatest number where they are more.
    pub fn len(&self) -> usize
        ensures { result ≡ min (map.len self.now.contents.entries) (2 ^ 64 - 1) }
    {
        count_in(&self.parts)
    }

    /// Whether it has no entry and no mark.
    pub fn is_empty(&self) -> bool
        ensures { result ≡ is_nothing self.now.contents }
    {
        are_empty(&self.parts)
    }

    /// Does all edits in order or, refused for memory, none. They are of one row.
    pub fn apply(&mut self, edits: &[Edit]) -> Result<(), NoMemory>
        requires { AreEdits edits.now }
        ensures ok { OnOk result (self.new.contents ≡ after_edits edits.now self.old.contents) }
        ensures err { OnErr result (self.new.contents ≡ self.old.contents) }
        ensures firsts { self.new.firsts ≡ self.old.firsts }
    {
        // An empty list of edits names no row, and so no tablet.
        if edits.is_empty() {
            return Ok(());
        }
        let i = place_in(&self.parts, edits[0].row());
        let part = &mut self.parts[i];
        part.1.apply(edits)
    }

    /// Copies all entries and marks of a tablet into another, puts that in its place, and answers the old one, emptied.
    ///
    /// Refused it answers the new one, emptied, and the table is as before: with 4 where the new one isn't empty, 5 where
    /// there is no such place, 1 where memory is refused.
    pub fn swap(&mut self, place: usize, tablet: T) -> Result<T, (T, Refusal)>
        ensures same { self.new ≡ self.old }
        ensures some { 0 < length self.old.firsts }
        ensures answered { IfOk result (λ old. T.contents old ≡ nothing) }
        ensures accepted { OnOk result (swap_reason (T.contents tablet) place
            (length self.old.firsts) ≡ None) }
        ensures handed_back { IfErr result (λ e. T.contents e.0 ≡ nothing) }
        ensures refused { IfErr result (λ e. e.1 ≡ refusal_or_want
            (swap_reason (T.contents tablet) place
            (length self.old.firsts))) }
    {
        // In the order of `swap_reason`, and memory last, since the new tablet is written to once nothing else
        // refuses it.
        let places = self.places();
        if !tablet.is_empty() {
            return Err((clear_tablet(tablet), Reason::NotEmpty.refusal()));
        }
        if place >= places {
            return Err((clear_tablet(tablet), Reason::NoSuchPlace.refusal()));
        }
        let mut tablet = tablet;
        if let Err(e) = copy_all(&self.parts[place].1, &mut tablet) {
            return Err((clear_tablet(tablet), Refusal::from(e)));
        }
        let part = &mut self.parts[place];
        let old = mem::replace(&mut part.1, tablet);
        Ok(clear_tablet(old))
    }

    /// Clears and ends all tablets.
    pub fn close(self) {
        let Table { mut parts } = self;
        while let Some((_, mut tablet)) = parts.pop() {
            tablet.clear();
            tablet.end();
        }
        // Also the empty list is ended by hand, since what could hold tablets can't be dropped.
        parts.destroy_empty();
    }
}
