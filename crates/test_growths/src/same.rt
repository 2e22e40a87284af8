//! Whether two tables are the same, entry by entry. No memory is needed for it.
use pb_accepted::Observer;
use pb_base::{Batch, Ts};
use pb_core::{Seat, Shared};
use pb_history::{KeptCall, KeptEntry};
use pb_state::State;
use pb_store::{Table, Tablet};

/// What two values can be compared by.
pub trait Alike {
    /// Whether the other is the same.
    fn is_alike(&self, other: &Self) -> bool;
}

impl Alike for KeptCall {
    fn is_alike(&self, other: &KeptCall) -> bool {
        self.is_same(other)
    }
}

impl Alike for KeptEntry {
    fn is_alike(&self, other: &KeptEntry) -> bool {
        self.seat() == other.seat() && self.call().is_same(other.call())
    }
}

impl Alike for Seat {
    fn is_alike(&self, other: &Seat) -> bool {
        self.number() == other.number() && are_alike(self.received(), other.received())
    }
}

impl Alike for Observer {
    fn is_alike(&self, other: &Observer) -> bool {
        self.name.as_str() == other.name.as_str()
            && self.column == other.column
            && self.program.is_same(&other.program)
    }
}

impl Alike for Batch {
    fn is_alike(&self, other: &Batch) -> bool {
        self.is_same(other)
    }
}

/// Whether two lists have the same values, in the same order.
pub fn are_alike<T: Alike>(a: &[T], b: &[T]) -> bool {
    if a.len() != b.len() {
        return false;
    }
    for (value, other) in a.iter().zip(b) {
        if !value.is_alike(other) {
            return false;
        }
    }
    true
}

// More than any table here has.
const MOST: usize = 100;

fn are_entries_same<T: Tablet>(a: &Table<T>, b: &Table<T>) -> bool {
    for place in 0..MOST {
        let entry = a.at(place);
        if entry != b.at(place) {
            return false;
        }
        if entry.is_none() {
            return true;
        }
    }
    false
}

fn are_marks_same<T: Tablet>(a: &Table<T>, b: &Table<T>) -> bool {
    let mut last = None;
    let mut other = None;
    for _place in 0..MOST {
        last = a.next_mark(last);
        other = b.next_mark(other);
        if last != other {
            return false;
        }
        if last.is_none() {
            return true;
        }
    }
    false
}

/// Whether two tables have the same entries and marks, in as many tablets.
pub fn are_tables_same<T: Tablet>(a: &Table<T>, b: &Table<T>) -> bool {
    a.places() == b.places() && are_entries_same(a, b) && are_marks_same(a, b)
}

/// Whether two states have the same entries, marks, observers, seats, clock and phases.
pub fn are_states_same<T: Tablet>(a: &State<T>, b: &State<T>) -> bool {
    for start in 0..MOST as u64 {
        if a.phase(Ts(start)) != b.phase(Ts(start)) {
            return false;
        }
    }
    a.clock() == b.clock()
        && a.seats() == b.seats()
        && are_alike(a.observers(), b.observers())
        && are_tables_same(a.table(), b.table())
}

fn are_phases_same<T: Tablet>(a: &Shared<T>, b: &Shared<T>) -> bool {
    for start in 0..MOST as u64 {
        if a.phase(Ts(start)) != b.phase(Ts(start)) {
            return false;
        }
    }
    true
}

// Whether two tables were opened so.
fn are_openings_same<T: Tablet>(a: &Shared<T>, b: &Shared<T>) -> bool {
    a.opened() == b.opened()
        && a.limit() == b.limit()
        && a.seats() == b.seats()
        && are_alike(a.observers(), b.observers())
}

/// Whether two tables with their journals have the same entries, marks, clock, phases and journal, and were opened so.
pub fn are_shared_same<T: Tablet>(a: &Shared<T>, b: &Shared<T>) -> bool {
    a.clock() == b.clock()
        && are_openings_same(a, b)
        && are_tables_same(a.table(), b.table())
        && are_phases_same(a, b)
        && are_alike(a.journal(), b.journal())
}
