//! A tablet that counts how often it is changed, and may refuse a change.
ghost use Rattle.std.specs.Prelude.{◌≡◌};
ghost use Rattle.pb_memtablet.specs.Either.{contents_inside};
ghost use Rattle.pb_store.specs.Contents.{Contents};

use crate::unready::refused;
use pb_base::{Cell, NoMemory, Ts};
use pb_memtablet::EitherTablet;
use pb_store::{Edit, Item, Slot, Sort, Tablet};
use std::alloc::Global;
use std::sync::Arc;
use std::sync::atomic::{AtomicUsize, Ordering};
use std::thread;

// For at most so many yields the end of a tablet waits, some seconds where nothing else runs.
const MAX_YIELDS: u32 = 10_000_000;

/// A tablet that counts the calls of `apply`, where others can read it, and refuses the one of this number, counted from 0,
/// for want of memory. Where it has a number to wait for, its end waits until that isn't 0 any more; if it waits in vain, it adds
/// 1,000 to it.
#[derive(Drop)]
pub struct CountedTablet {
    pub inner: EitherTablet,
    pub calls: Arc<AtomicUsize>,
    pub refused: Option<usize>,
    /// What the refused growth is asked of.
    pub alloc: Global,
    pub until: Option<Arc<AtomicUsize>>,
}

// Waits until the number isn't 0 any more.
fn wait_for(number: &AtomicUsize) {
    for _ in 0..MAX_YIELDS {
        if number.load(Ordering::SeqCst) > 0 {
            return;
        }
        thread::yield_now();
    }
    number.fetch_add(1_000, Ordering::SeqCst);
}

impl Tablet for CountedTablet {
    ghost contents = { λ t. contents_inside t.inner };

    fn get(&self, slot: Slot) -> Option<Item> {
        self.inner.get(slot)
    }

    fn newest(&self, cell: Cell, sort: Sort, high: Ts) -> Option<(Ts, Item)> {
        self.inner.newest(cell, sort, high)
    }

    fn next_mark(&self, after: Option<Cell>) -> Option<Cell> {
        self.inner.next_mark(after)
    }

    fn len(&self) -> usize {
        self.inner.len()
    }

    fn at(&self, place: usize) -> Option<(Slot, Item)> {
        self.inner.at(place)
    }

    fn next_entry(&self, after: Option<Slot>) -> Option<(Slot, Item)> {
        self.inner.next_entry(after)
    }

    fn is_empty(&self) -> bool {
        self.inner.is_empty()
    }

    fn apply(&mut self, edits: &[Edit]) -> Result<(), NoMemory> {
        let number = self.calls.fetch_add(1, Ordering::SeqCst);
        if self.refused == Some(number) {
            refused(self.alloc)?;
        }
        self.inner.apply(edits)
    }

    fn clear(&mut self) {
        self.inner.clear();
    }

    fn end(self) {
        if let Some(until) = &self.until {
            wait_for(until);
        }
        drop(self);
    }
}
