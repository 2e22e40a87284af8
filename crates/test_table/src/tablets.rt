//! Tablets: those that a table begins with, those that are swapped in, and what is in them.
use crate::words::Words;
use pb_base::{Cell, Content, Refusal, Row};
use pb_core::Shared;
use pb_memtablet::EitherTablet;
use pb_script::digits_of;
use pb_store::{Item, Slot, Table, Tablet};
use std::alloc::{AllocError, Global};
use test_fixtures::{mark_edit, put_edit};

// The first row of a tablet, and whether it is a slab.
fn tablet_in(word: &str) -> Option<(u64, bool)> {
    let (first, is_slab) = match word.strip_suffix('s') {
        Some(first) => (first, true),
        None => (word.strip_suffix('l')?, false),
    };
    Some((first.parse::<u64>().ok()?, is_slab))
}

/// The tablets that a text names.
pub fn parts_in(alloc: Global, text: &str) -> Option<Vec<(Row, EitherTablet)>> {
    let mut parts = Vec::new(alloc);
    for word in text.split_whitespace() {
        let (first, is_slab) = tablet_in(word)?;
        parts
            .push((Row(first), EitherTablet::new(alloc, is_slab)))
            .ok()?;
    }
    Some(parts)
}

/// Adds the number that tablets are refused with, and their first rows.
pub fn add_refused<T: Tablet>(
    text: &mut String,
    parts: &[(Row, T)],
    refusal: Refusal,
) -> Result<(), AllocError> {
    write!(text, "refused {}", refusal.code())?;
    for part in parts {
        write!(text, " {}", part.0.0)?;
    }
    text.push_str("\n")
}

fn end<T: Tablet>(tablet: T) {
    let mut tablet = tablet;
    tablet.clear();
    tablet.end();
}

// Ends a tablet that comes back, and adds its sort, and that something was in it, if it was.
fn add_back(text: &mut String, tablet: EitherTablet) -> Result<(), AllocError> {
    let is_slab = matches!(&tablet, EitherTablet::Slab(_));
    let is_empty = tablet.is_empty() && tablet.len() == 0;
    end(tablet);
    text.push_str(if is_slab { "s" } else { "l" })?;
    if is_empty {
        return Ok(());
    }
    text.push_str(" not empty")
}

// The spare that the words name, with a lock or a mark in it where that is asked for.
fn spare_in(alloc: Global, words: &mut Words) -> Option<EitherTablet> {
    let mut spare = EitherTablet::new(alloc, words.next() == "s");
    let is_ready = match words.next() {
        "locked" => spare.apply(&[put_edit(4, 6)]).is_ok(),
        "marked" => spare.apply(&[mark_edit(4, 0)]).is_ok(),
        _ => true,
    };
    if is_ready {
        return Some(spare);
    }
    end(spare);
    None
}

/// Swaps a spare in, and adds what comes back.
pub fn add_swap(
    alloc: Global,
    text: &mut String,
    shared: &mut Shared<EitherTablet>,
    words: &mut Words,
) -> Option<()> {
    let place = words.next().parse::<usize>().ok()?;
    let spare = spare_in(alloc, words)?;
    match shared.swap(place, spare) {
        Ok(old) => add_back(text, old).ok(),
        Err((spare, refusal)) => {
            let is_added = write!(text, "refused {} ", refusal.code()).is_ok();
            let is_back_added = add_back(text, spare).is_ok();
            if is_added && is_back_added {
                Some(())
            } else {
                None
            }
        }
    }
}

fn add_cell(text: &mut String, cell: &Cell) -> Result<(), AllocError> {
    if let Cell::Ack(observer, _, _) = cell {
        write!(text, "ack {} ", observer.number())?;
    }
    write!(text, "{} {}", cell.row().0, cell.column().number())
}

fn add_content(text: &mut String, content: &Content) -> Result<(), AllocError> {
    match content {
        Content::Value(value) => {
            let mut room = [0; 64];
            write!(text, "value {}", digits_of(value, &mut room))
        }
        Content::Deleted => text.push_str("deleted"),
        Content::Stamp(stamp) => write!(text, "stamp {}", stamp.0),
    }
}

// Adds an entry: its cell, its sort with its timestamp, and its item.
fn add_entry(text: &mut String, slot: &Slot, item: &Item) -> Result<(), AllocError> {
    add_cell(text, &slot.cell)?;
    let at = slot.ts.0;
    match item {
        Item::Data(content) => {
            write!(text, " data {at} ")?;
            add_content(text, content)
        }
        Item::Lock(primary) => {
            write!(text, " lock {at} ")?;
            add_cell(text, primary)
        }
        Item::Write(start) => write!(text, " write {at} {}", start.0),
    }
}

/// Adds the entries of a table, in order.
pub fn add_entries<T: Tablet>(text: &mut String, table: &Table<T>) -> Result<(), AllocError> {
    text.push_str("entries ->")?;
    for place in 0..1000_usize {
        if let Some((slot, item)) = table.at(place) {
            text.push_str(if place == 0 { " " } else { "; " })?;
            add_entry(text, &slot, &item)?;
        }
    }
    Ok(())
}
