//! Tablets that count their changes, for a table and for its spares.
use crate::task::Task;
use pb_base::{NoMemory, Row};
use pb_memtablet::EitherTablet;
use pb_store::Tablet;
use std::alloc::Global;
use std::sync::Arc;
use std::sync::atomic::AtomicUsize;
use test_fixtures::{CountedTablet, mark_edit};

/// How often a tablet was changed.
pub type Count = Arc<AtomicUsize>;

/// The count of what wasn't changed yet.
pub fn no_changes(alloc: Global) -> Result<Count, NoMemory> {
    Ok(Arc::new(alloc, AtomicUsize::new(0))?)
}

// An empty tablet of the sort that a letter names.
fn tablet(
    alloc: Global,
    letter: u8,
    calls: Count,
    refused: Option<usize>,
    until: Option<Count>,
) -> CountedTablet {
    CountedTablet {
        inner: EitherTablet::new(alloc, letter == b's'),
        calls,
        refused,
        until,
        alloc,
    }
}

/// The tablets of a task's table, a thousand rows apart. Their changes are counted together, and the end of the first waits for a
/// number, where there is one.
pub fn parts_of(
    alloc: Global,
    task: &Task,
    until: Option<&Count>,
) -> Result<Vec<(Row, CountedTablet)>, NoMemory> {
    let count = no_changes(alloc)?;
    let mut parts = Vec::new(alloc);
    let mut first: u64 = 0;
    for letter in task.sorts.as_bytes() {
        let calls = count.clone()?;
        let until = match (first, until) {
            (0, Some(until)) => Some(until.clone()?),
            _ => None,
        };
        let part = tablet(alloc, *letter, calls, task.refused, until);
        parts.push((Row(first), part))?;
        first = first.saturating_add(1000);
    }
    Ok(parts)
}

/// The place that a digit names.
pub fn place_of(digit: u8) -> usize {
    usize::from(digit.wrapping_sub(b'0'))
}

/// Spares, each with its place, and how often each was changed.
#[derive(Drop)]
pub struct Spares {
    pub parts: Vec<(usize, CountedTablet)>,
    pub counts: Vec<Count>,
}

// Adds the spare that a word names, with a mark in it where that is asked for, or refusing its first change.
fn add_spare(alloc: Global, spares: &mut Spares, word: &[u8]) -> Option<()> {
    let [place, letter, more @ ..] = word else {
        return None;
    };
    let refused = if more.first() == Some(&b'r') {
        Some(0)
    } else {
        None
    };
    let count = no_changes(alloc).ok()?;
    spares.counts.push(count.clone().ok()?).ok()?;
    let mut part = tablet(alloc, *letter, count, refused, None);
    let is_ready = more.first() != Some(&b'm') || part.apply(&[mark_edit(4, 0)]).is_ok();
    spares.parts.push((place_of(*place), part)).ok()?;
    if is_ready { Some(()) } else { None }
}

/// The spares that words name.
pub fn spares_in(alloc: Global, words: &[String]) -> Option<Spares> {
    let mut spares = Spares {
        parts: Vec::new(alloc),
        counts: Vec::new(alloc),
    };
    for word in words {
        add_spare(alloc, &mut spares, word.as_bytes())?;
    }
    Some(spares)
}
