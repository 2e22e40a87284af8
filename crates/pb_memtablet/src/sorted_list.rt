//! A sorted list in chunks: its parts, and the room that it keeps for puts that can't fail.
ghost use Rattle.std.specs.Prelude.{◌≡◌, ◌==◌, ◌+◌, ◌-◌, ◌<◌, ◌≤◌, IsTrue, IsOk, OnOk, [], None, length, max, not, slice_get, vec_len};
ghost use Rattle.std.specs.List.{All, last_or};
ghost use Rattle.std.specs.Ordering.{eq_by_cmp};
ghost use Rattle.std.specs.FinMap.{find, put, is_sorted};
ghost use Rattle.std.specs.FinMap.Entries.{where_key};
ghost use Rattle.pb_memtablet.specs.Chunks.{IsSpare, entries_up_to, entries_above};

use crate::chunks::{
    CHUNK, Chunk, Likely, first_above, last_up_to, put_among, put_both_among, replace_among,
    take_among, value_at,
};
use crate::counts::entry_at;
use std::alloc::{AllocError, Global};
use std::cell::Cell;
use std::marker::Model;

/// A list of entries, sorted by key, in chunks of bounded length.
///
/// A put or a removal moves the entries of one chunk at most, and not all that stand after it.
#[derive(Drop)]
pub struct SortedList<K: Ord, V> {
    alloc: Global,
    chunks: Vec<Chunk<K, V>>,
    // Empty chunks with memory of their own, of which each put takes one at most, so that there is room for as many puts.
    spares: Vec<Chunk<K, V>>,
    // How many entries each block of chunks has, so that `at` needn't go along all chunks.
    counts: Vec<usize>,
    // A unit for each entry, by which they are counted. It has no bytes, but room for it is asked for as for anything else,
    // and is refused where there would be more than can be counted.
    tally: Vec<()>,
    // Look-ups change it too, since it stands in cells: a list may be sent to another thread, and not be shared by two.
    likely: Likely,
}

impl<K: Ord, V> Model for SortedList<K, V> {
    ghost use Rattle.pb_memtablet.specs.ListOf.{ListOf, list_code};

    ghost Value = { ListOf K V };

    ghost coded = { list_code K.code V.code };

    ghost use Rattle.pb_memtablet.specs.Chunks.{chunk_entries};
    ghost use Rattle.pb_memtablet.specs.ListParts.{AreListParts, puts_left};

    ghost view = { λ l. record { entries = chunk_entries l.chunks.items; room = puts_left l.spares l.tally } };

    ghost invariant = { λ l. AreListParts K.cmp l.chunks l.spares l.counts l.tally };
}

impl<K: Ord, V> SortedList<K, V> {
    /// The list with nothing in it. It takes no memory until there is room for a put.
    pub fn new(alloc: Global) -> Self
        ensures entries { result.entries ≡ [] }
        ensures room { result.room ≡ 0 }
    {
        SortedList {
            alloc,
            chunks: Vec::new(alloc),
            spares: Vec::new(alloc),
            counts: Vec::new(alloc),
            tally: Vec::new(alloc),
            likely: Likely {
                chunk: Cell::new(0),
                place: Cell::new(0),
            },
        }
    }

    /// The number of entries.
    pub fn len(&self) -> usize
        ensures len { result ≡ length self.now.entries }
        ensures sorted { IsTrue (is_sorted K.cmp self.now.entries) }
    {
        self.tally.len()
    }

    pub fn is_empty(&self) -> bool
        ensures { result ≡ (length self.now.entries == 0) }
    {
        self.tally.is_empty()
    }
}

impl<K: Ord, V: Copy> SortedList<K, V> {
    /// The value at the key.
    pub fn get(&self, key: &K) -> Option<V>
        ensures { result ≡ find K.cmp key.now self.now.entries }
    {
        value_at(&self.chunks, key, &self.likely)
    }
}

impl<K: Ord + Copy, V: Copy> SortedList<K, V> {
    /// The last entry whose key is at most the given one.
    pub fn last_up_to(&self, key: &K) -> Option<(K, V)>
        ensures { result ≡ last_or None (entries_up_to K.cmp key.now self.now.entries) }
    {
        last_up_to(&self.chunks, key, &self.likely)
    }

    /// The first entry whose key is above the given one.
    pub fn first_above(&self, key: &K) -> Option<(K, V)>
        ensures { result ≡ slice_get (entries_above K.cmp key.now self.now.entries) 0 }
    {
        first_above(&self.chunks, key, &self.likely)
    }

    /// The entry at a place. It walks over the blocks of chunks before it, and then in one block.
    pub fn at(&self, place: usize) -> Option<(K, V)>
        ensures { result ≡ slice_get self.now.entries place }
    {
        entry_at(&self.chunks, &self.counts, place)
    }
}

// Adds spares until there are so many.
fn stock_spares<K: Drop, V: Drop>(
    spares: &mut Vec<Chunk<K, V>>,
    alloc: Global,
    wanted: usize,
) -> Result<(), AllocError>
    requires { All IsSpare spares.old.items }
    ensures spares { All IsSpare spares.new.items }
    ensures ok { OnOk result (wanted ≤ vec_len spares.new) }
    ensures kept { vec_len spares.old ≤ vec_len spares.new }
    ensures most { vec_len spares.new ≤ max (vec_len spares.old) wanted }
{
    while spares.len() < wanted {
        let spare = Vec::with_capacity(alloc, CHUNK)?;
        spares.push(spare)?;
    }
    Ok(())
}

impl<K: Ord + Drop, V: Drop> SortedList<K, V> {
    /// Makes room for so many puts. No entry is changed, and it answers Ok where there is room already.
    pub fn reserve(&mut self, puts: usize) -> Result<(), AllocError>
        ensures entries { self.new.entries ≡ self.old.entries }
        ensures ok { OnOk result (puts ≤ self.new.room) }
        ensures succeeds { puts ≤ self.old.room → IsOk result }
        ensures room { self.old.room ≤ self.new.room }
    {
        if puts <= self.spares.len() && puts <= self.tally.capacity() - self.tally.len() {
            return Ok(());
        }
        self.tally.reserve(puts)?;
        // Each put may make one chunk more, and counts get as much room, since they are counted anew when that happens.
        self.chunks.reserve(puts)?;
        self.counts.reserve(self.chunks.len() + puts)?;
        stock_spares(&mut self.spares, self.alloc, puts)
    }

    /// Puts the value at the key. There is room for it. All other entries stay, and it takes one room at most. It can't
    /// fail.
    pub fn put(&mut self, key: K, value: V)
        requires { 0 < self.old.room }
        ensures entries { self.new.entries ≡ put K.cmp key value self.old.entries }
        ensures room { self.old.room ≤ self.new.room + 1 }
    {
        if put_among(
            &mut self.chunks,
            &mut self.spares,
            &mut self.counts,
            &self.likely,
            key,
            value,
        ) {
            self.tally.push_reserved(());
        }
    }

    /// Takes the key out. It takes no room.
    pub fn take_out(&mut self, key: &K)
        ensures entries { self.new.entries ≡ where_key K.cmp
            (λ k. not (eq_by_cmp K.cmp key.now k)) self.old.entries }
        ensures room { self.old.room ≤ self.new.room }
    {
        if take_among(
            &mut self.chunks,
            &mut self.spares,
            &mut self.counts,
            &self.likely,
            key,
        ) {
            self.tally.take_last();
        }
    }

    /// Takes all out, and keeps the room. The chunks themselves are given back, since only spares are counted as room.
    pub fn clear(&mut self)
        ensures entries { self.new.entries ≡ [] }
        ensures room { self.old.room ≤ self.new.room }
    {
        self.chunks.clear();
        self.counts.clear();
        self.tally.clear();
    }
}

impl<K: Ord + Copy + Drop, V: Copy + Drop> SortedList<K, V> {
    /// Puts one value and then another, each at its key. There is room for both. Where the second
    /// key belongs right after the first, they are put together.
    pub fn put_both(&mut self, key: K, value: V, next: K, next_value: V)
        requires { 2 ≤ self.old.room }
        ensures entries { self.new.entries ≡ put K.cmp next next_value
            (put K.cmp key value self.old.entries) }
        ensures room { self.old.room ≤ self.new.room + 2 }
    {
        if put_both_among(
            &mut self.chunks,
            &mut self.counts,
            &self.likely,
            key,
            value,
            next,
            next_value,
        ) {
            self.tally.push_reserved(());
            self.tally.push_reserved(());
            return;
        }
        // Each by a search of its own, since the two belong apart, or into a chunk that is full.
        self.put(key, value);
        self.put(next, next_value);
    }

    /// Takes one key out, and puts the value at the other. There is room for it. Where no key stands between the two, the
    /// entry changes where it stands.
    pub fn replace(&mut self, gone: &K, key: K, value: V)
        requires { 0 < self.old.room }
        ensures entries { self.new.entries ≡ put K.cmp key value
            (where_key K.cmp (λ k. not (eq_by_cmp K.cmp gone.now k)) self.old.entries) }
        ensures room { self.old.room ≤ self.new.room + 1 }
    {
        if replace_among(
            &mut self.chunks,
            self.likely.chunk.get(),
            &self.likely.place,
            gone,
            key,
            value,
        ) {
            return;
        }
        // The entry has to move, since another key stands between, or the chunk that was likely isn't the right one.
        self.take_out(gone);
        self.put(key, value);
    }
}
