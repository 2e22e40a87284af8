//! The answer to `quiet?`, and what it counts.
ghost use Rattle.std.specs.Prelude.{◌≡◌, ◌+◌, IfOk, OnOk, length, string_bytes, if◌then◌else◌};
ghost use Rattle.std.specs.FinMap as map;
ghost use Rattle.pb_steps.specs.Readings.{is_lock, lock_count};
ghost use Rattle.pb_script.specs.ReportLines.{last_line};

use pb_base::NoMemory;
use pb_script::last_line;
use pb_state::State;
use pb_store::{Slot, Sort, Table, Tablet};
use std::alloc::Global;

// How many cells are marked, with a unit for each. Units have no bytes, but room for one is asked for as for anything else,
// and is refused where there would be more than can be counted.
fn count_marks<T: Tablet>(alloc: Global, table: &Table<T>) -> Result<usize, NoMemory>
    ensures { IfOk result (λ n. n ≡ map.len table.now.contents.marks) }
{
    let mut marked = Vec::new(alloc);
    let mut last = None;
    while let Some(cell) = table.next_mark(last) {
        marked.push(())?;
        last = Some(cell);
    }
    Ok(marked.len())
}

// Adds a unit if an entry is a lock.
fn note_lock(locks: &mut Vec<()>, slot: &Slot) -> Result<(), NoMemory>
    ensures { OnOk result (length locks.new.items
        ≡ length locks.old.items + (if is_lock slot.now.sort then 1 else 0)) }
{
    if slot.sort == Sort::Lock {
        locks.push(())?;
    }
    Ok(())
}

// How many locks stand, with a unit for each.
fn count_locks<T: Tablet>(alloc: Global, table: &Table<T>) -> Result<usize, NoMemory>
    ensures { IfOk result (λ n. n ≡ lock_count table.now.contents.entries) }
{
    let mut locks = Vec::new(alloc);
    let mut after = None;
    while let Some((slot, _)) = table.next_entry(after) {
        note_lock(&mut locks, &slot)?;
        after = Some(slot);
    }
    Ok(locks.len())
}

/// How many cells are marked.
pub(crate) fn marks_of<T: Tablet>(alloc: Global, state: &State<T>) -> Result<usize, NoMemory>
    ensures { IfOk result (λ n. n ≡ map.len state.now.marks) }
{
    count_marks(alloc, state.table())
}

/// How many locks stand.
pub(crate) fn locks_of<T: Tablet>(alloc: Global, state: &State<T>) -> Result<usize, NoMemory>
    ensures { IfOk result (λ n. n ≡ lock_count state.now.entries) }
{
    count_locks(alloc, state.table())
}

/// The answer to `quiet?`: `quiet`, or how many cells are marked and how many locks stand.
pub fn answer_quiet<T: Tablet>(alloc: Global, state: &State<T>) -> Result<String, NoMemory>
    ensures { IfOk result (λ s. string_bytes s
        ≡ last_line (map.len state.now.marks) (lock_count state.now.entries)) }
{
    let text = last_line(alloc, marks_of(alloc, state)?, locks_of(alloc, state)?)?;
    Ok(text)
}
