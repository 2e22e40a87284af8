//! A tablet of either sort: a table is generic over one type, so that one with tablets of both sorts needs this.
ghost use Rattle.std.specs.Prelude.{◌≡◌};
ghost use Rattle.pb_store.specs.Contents.{nothing};
ghost use Rattle.pb_memtablet.specs.Either.{contents_inside, is_slab_inside};

use crate::list::ListTablet;
use crate::slab_tablet::SlabTablet;
use pb_base::{Cell, NoMemory, Ts};
use pb_store::{Edit, Item, Slot, Sort, Tablet};
use std::alloc::Global;

/// A list or a slab, for tables that have tablets of both sorts.
#[derive(Drop)]
pub enum EitherTablet {
    List(ListTablet),
    Slab(SlabTablet),
}

impl EitherTablet {
    /// An empty one of this sort. It takes no memory.
    pub fn new(alloc: Global, as_slab: bool) -> EitherTablet
        ensures contents { contents_inside result ≡ nothing }
        ensures sort { is_slab_inside result ≡ as_slab }
    {
        if as_slab {
            EitherTablet::Slab(SlabTablet::new(alloc))
        } else {
            EitherTablet::List(ListTablet::new(alloc))
        }
    }
}

// Each body passes the call on, so that what it contains is what the tablet inside does.
impl Tablet for EitherTablet {
    ghost contents = { contents_inside };

    fn get(&self, slot: Slot) -> Option<Item> {
        match self {
            EitherTablet::List(tablet) => tablet.get(slot),
            EitherTablet::Slab(tablet) => tablet.get(slot),
        }
    }

    fn newest(&self, cell: Cell, sort: Sort, high: Ts) -> Option<(Ts, Item)> {
        match self {
            EitherTablet::List(tablet) => tablet.newest(cell, sort, high),
            EitherTablet::Slab(tablet) => tablet.newest(cell, sort, high),
        }
    }

    fn next_mark(&self, after: Option<Cell>) -> Option<Cell> {
        match self {
            EitherTablet::List(tablet) => tablet.next_mark(after),
            EitherTablet::Slab(tablet) => tablet.next_mark(after),
        }
    }

    fn len(&self) -> usize {
        match self {
            EitherTablet::List(tablet) => tablet.len(),
            EitherTablet::Slab(tablet) => tablet.len(),
        }
    }

    fn at(&self, place: usize) -> Option<(Slot, Item)> {
        match self {
            EitherTablet::List(tablet) => tablet.at(place),
            EitherTablet::Slab(tablet) => tablet.at(place),
        }
    }

    fn next_entry(&self, after: Option<Slot>) -> Option<(Slot, Item)> {
        match self {
            EitherTablet::List(tablet) => tablet.next_entry(after),
            EitherTablet::Slab(tablet) => tablet.next_entry(after),
        }
    }

    fn is_empty(&self) -> bool {
        match self {
            EitherTablet::List(tablet) => tablet.is_empty(),
            EitherTablet::Slab(tablet) => tablet.is_empty(),
        }
    }

    fn apply(&mut self, edits: &[Edit]) -> Result<(), NoMemory> {
        match self {
            EitherTablet::List(tablet) => tablet.apply(edits),
            EitherTablet::Slab(tablet) => tablet.apply(edits),
        }
    }

    fn clear(&mut self) {
        match self {
            EitherTablet::List(tablet) => tablet.clear(),
            EitherTablet::Slab(tablet) => tablet.clear(),
        }
    }

    fn end(self) {
        drop(self);
    }
}
