//! Chunks of entries, sorted together by key: look-ups and changes find the one chunk where a key belongs.
ghost use Rattle.std.specs.Prelude.{◌≡◌, true, ℕ, List, ◌<◌, ◌≤◌, ◌+◌, ◌-◌, IsTrue, [], ◌∷◌, cond, not, length, take, drop, slice_get, vec_len, vec_capacity};
ghost use Rattle.std.specs.List.{All, HoldsAt, last_or, remove};
ghost use Rattle.std.specs.Ordering.{eq_by_cmp};
ghost use Rattle.std.specs.FinMap.{find, put, is_sorted};
ghost use Rattle.std.specs.FinMap.Entries.{where_key};
ghost use Rattle.pb_memtablet.specs.BlockCounts.{AreCounts};
ghost use Rattle.pb_memtablet.specs.Chunks.{chunk_entries, IsChunk, IsHalf, IsSpare, AreChunks, AreAbove, IsHome, entries_up_to, entries_above, starts_by};

use crate::counts::{block_of, count_blocks};
use crate::sorted::{
    gap_for_both, insert_both, look_up, place_above, put_in, replace_in, take_from,
};
use std::cell::Cell;

// How many entries a chunk holds at most. Half as many were slower, since there are twice the chunks to move and to
// count, and twice as many won nothing, since an edit then moves more. The proofs hold at each length.
pub(crate) const CHUNK: usize = 64;

// How many entries stay in a full chunk that is parted: half, so that neither part is soon full again.
const HALF: usize = CHUNK / 2;

// How many spares there are at most for an emptied chunk to become one more; beyond, its memory is given back.
const SPARES: usize = 64;

// A chunk has the memory of a full one from the first on, so that a put into it asks for none.
pub(crate) type Chunk<K, V> = Vec<(K, V)>;

// Where the last key stood: its chunk, and its place there. The next key is tried there first, since a step looks at
// lock, write records and data of one cell, and the rows of a pass rise. Both can be any numbers, since they are looked
// at before they are taken; so no contract speaks of them.
#[derive(Drop)]
pub(crate) struct Likely {
    pub(crate) chunk: Cell<usize>,
    pub(crate) place: Cell<usize>,
}

// Whether the first key is at most the given one.
fn does_start_by<K: Ord, V>(entries: &[(K, V)], key: &K) -> bool
    ensures { result ≡ starts_by K.cmp key.now entries.now }
{
    !entries.is_empty() && entries[0].0.cmp(key).is_le()
}

// Whether the chunk after a place, if there is one, starts above the key.
#[inline(always)]
fn is_below_next<K: Ord, V>(chunks: &[Chunk<K, V>], key: &K, place: usize) -> bool
    requires chunks { AreChunks K.cmp chunks.now }
    requires within { place < length chunks.now }
    ensures { result ≡ true → AreAbove K.cmp key.now (chunk_entries (drop (place + 1) chunks.now)) }
{
    if place + 1 == chunks.len() {
        return true;
    }
    !does_start_by(&chunks[place + 1], key)
}

// Whether the key stands in the chunk at a place, or would stand there: the chunk starts by it, and the next one doesn't.
// The first chunk isn't asked, since a key below all belongs there too.
#[inline(always)]
fn is_home<K: Ord, V>(chunks: &[Chunk<K, V>], key: &K, place: usize) -> bool
    requires { AreChunks K.cmp chunks.now }
    ensures home { result ≡ true → IsHome K.cmp chunks.now key.now place }
    ensures started { result ≡ true → 0 < place → HoldsAt
        (λ c. starts_by K.cmp key.now c.items ≡ true) chunks.now place }
{
    if place >= chunks.len() || !is_below_next(chunks, key, place) {
        return false;
    }
    if place == 0 {
        return true;
    }
    does_start_by(&chunks[place], key)
}

// The place of the chunk where the key stands, or would stand. A place that is likely is tried first.
#[inline(always)]
fn home_of<K: Ord, V>(chunks: &[Chunk<K, V>], key: &K, likely: usize) -> usize
    requires chunks { AreChunks K.cmp chunks.now }
    requires some { 0 < length chunks.now }
    ensures home { IsHome K.cmp chunks.now key.now result }
    ensures started { 0 < result → HoldsAt (λ c. starts_by K.cmp key.now c.items
        ≡ true) chunks.now result }
{
    if is_home(chunks, key, likely) {
        return likely;
    }
    // As many chunks after the first start by the key as its place is.
    chunks[1..].partition_point(|chunk| does_start_by(chunk, key))
}

// The place of the chunk where the key stands, or would stand, noted as the next likely one.
#[inline(always)]
fn noted_home<K: Ord, V>(chunks: &[Chunk<K, V>], key: &K, likely: &Cell<usize>) -> usize
    requires chunks { AreChunks K.cmp chunks.now }
    requires some { 0 < length chunks.now }
    ensures home { IsHome K.cmp chunks.now key.now result }
    ensures started { 0 < result → HoldsAt (λ c. starts_by K.cmp key.now c.items
        ≡ true) chunks.now result }
{
    let home = home_of(chunks, key, likely.get());
    likely.set(home);
    home
}

// The value at the key.
pub(crate) fn value_at<K: Ord, V: Copy>(
    chunks: &[Chunk<K, V>],
    key: &K,
    likely: &Likely,
) -> Option<V>
    requires { AreChunks K.cmp chunks.now }
    ensures { result ≡ find K.cmp key.now (chunk_entries chunks.now) }
{
    if chunks.is_empty() {
        return None;
    }
    look_up(
        &chunks[noted_home(chunks, key, &likely.chunk)],
        key,
        &likely.place,
    )
}

// The last entry whose key is at most the given one.
pub(crate) fn last_up_to<K: Ord + Copy, V: Copy>(
    chunks: &[Chunk<K, V>],
    key: &K,
    likely: &Likely,
) -> Option<(K, V)>
    requires { AreChunks K.cmp chunks.now }
    ensures { result ≡ last_or None (entries_up_to K.cmp key.now (chunk_entries chunks.now)) }
{
    if chunks.is_empty() {
        return None;
    }
    let chunk = &chunks[noted_home(chunks, key, &likely.chunk)];
    let above = place_above(chunk, key, &likely.place);
    if above == 0 {
        None
    } else {
        Some(chunk[above - 1])
    }
}

// The first entry whose key is above the given one. It notes the entry's place as the next likely one, so that a walk
// over all entries finds each by three comparisons and makes no search.
pub(crate) fn first_above<K: Ord + Copy, V: Copy>(
    chunks: &[Chunk<K, V>],
    key: &K,
    likely: &Likely,
) -> Option<(K, V)>
    requires { AreChunks K.cmp chunks.now }
    ensures { result ≡ slice_get (entries_above K.cmp key.now (chunk_entries chunks.now)) 0 }
{
    if chunks.is_empty() {
        return None;
    }
    let home = noted_home(chunks, key, &likely.chunk);
    let chunk = &chunks[home];
    let place = place_above(chunk, key, &likely.place);
    if place < chunk.len() {
        likely.place.set(place);
        Some(chunk[place])
    } else if home + 1 < chunks.len() {
        likely.chunk.set(home + 1);
        likely.place.set(0);
        Some(chunks[home + 1][0])
    } else {
        None
    }
}

// The entry at a place, counted over these chunks.
pub(crate) fn entry_among<K: Copy, V: Copy>(chunks: &[Chunk<K, V>], place: usize) -> Option<(K, V)>
    ensures { result ≡ slice_get (chunk_entries chunks.now) place }
{
    let mut left = place;
    for chunk in chunks {
        if left < chunk.len() {
            return Some(chunk[left]);
        }
        left -= chunk.len();
    }
    None
}

// Moves the second half of a full chunk into an empty one.
fn move_half<K: Drop, V: Drop>(chunk: &mut Chunk<K, V>, empty: &mut Chunk<K, V>)
    requires full { vec_len chunk.old ≡ CHUNK }
    requires empty { IsSpare empty.old }
    ensures kept { chunk.new.items ≡ take HALF chunk.old.items }
    ensures moved { empty.new.items ≡ drop HALF chunk.old.items }
    ensures kept_len { vec_len chunk.new ≡ HALF }
    ensures moved_len { vec_len empty.new ≡ HALF }
    ensures kept_capacity { vec_capacity chunk.old ≤ vec_capacity chunk.new }
    ensures moved_capacity { vec_capacity empty.old ≤ vec_capacity empty.new }
{
    // From the end, since nothing moves up then; so they come in turned order.
    while chunk.len() > HALF {
        let entry = chunk.pop().unwrap();
        empty.push(entry).unwrap();
    }
    empty.reverse();
}

// Parts a full chunk into two halves, the second in a spare, so that no memory is asked for.
fn part_chunk<K: Drop, V: Drop>(
    chunks: &mut Vec<Chunk<K, V>>,
    spares: &mut Vec<Chunk<K, V>>,
    place: usize,
)
    requires within { place < vec_len chunks.old }
    requires each { All IsChunk chunks.old.items }
    requires full { HoldsAt (λ c. vec_len c ≡ CHUNK) chunks.old.items place }
    requires spares { All IsSpare spares.old.items }
    requires spare { 0 < vec_len spares.old }
    requires room { vec_len chunks.old < vec_capacity chunks.old }
    ensures entries { chunk_entries chunks.new.items ≡ chunk_entries chunks.old.items }
    ensures before { take place chunks.new.items ≡ take place chunks.old.items }
    ensures after { drop (place + 2) chunks.new.items ≡ drop (place + 1) chunks.old.items }
    ensures halves { HoldsAt IsHalf chunks.new.items place
        × HoldsAt IsHalf chunks.new.items (place + 1) }
    ensures each { All IsChunk chunks.new.items }
    ensures spares { All IsSpare spares.new.items }
    ensures len { vec_len chunks.new ≡ vec_len chunks.old + 1 }
    ensures spares_len { vec_len spares.new + 1 ≡ vec_len spares.old }
    ensures capacity { vec_capacity chunks.old ≤ vec_capacity chunks.new }
{
    let mut half = spares.pop().unwrap();
    move_half(&mut chunks[place], &mut half);
    chunks.insert(place + 1, half).unwrap();
}

// The place of the chunk where the key belongs, which is parted first if it is full.
fn roomy_home<K: Ord + Drop, V: Drop>(
    chunks: &mut Vec<Chunk<K, V>>,
    spares: &mut Vec<Chunk<K, V>>,
    counts: &mut Vec<usize>,
    key: &K,
    likely: usize,
) -> usize
    requires chunks { AreChunks K.cmp chunks.old.items }
    requires some { 0 < vec_len chunks.old }
    requires spares { All IsSpare spares.old.items }
    requires spare { 0 < vec_len spares.old }
    requires room { vec_len chunks.old + vec_len spares.old ≤ vec_capacity chunks.old }
    requires counts { AreCounts counts.old.items chunks.old.items }
    requires counts_room { vec_len chunks.old + vec_len spares.old ≤ vec_capacity counts.old }
    ensures home { IsHome K.cmp chunks.new.items key.now result }
    ensures not_full { HoldsAt (λ c. vec_len c < CHUNK) chunks.new.items result }
    ensures entries { chunk_entries chunks.new.items ≡ chunk_entries chunks.old.items }
    ensures each { All IsChunk chunks.new.items }
    ensures spares { All IsSpare spares.new.items }
    ensures len { vec_len chunks.new + vec_len spares.new
        ≡ vec_len chunks.old + vec_len spares.old }
    ensures spares_len { vec_len spares.old ≤ vec_len spares.new + 1 }
    ensures capacity { vec_capacity chunks.old ≤ vec_capacity chunks.new }
    ensures counts { AreCounts counts.new.items chunks.new.items }
    ensures counts_capacity { vec_capacity counts.old ≤ vec_capacity counts.new }
{
    let home = home_of(chunks, key, likely);
    if chunks[home].len() < CHUNK {
        return home;
    }
    part_chunk(chunks, spares, home);
    // All blocks are counted, since each later chunk has moved by one place.
    count_blocks(chunks, counts);
    if does_start_by(&chunks[home + 1], key) {
        home + 1
    } else {
        home
    }
}

// Puts the first entry, in a chunk of its own: an empty list has no chunk, since a key finds its chunk by first keys.
fn put_alone<K: Ord + Drop, V: Drop>(
    chunks: &mut Vec<Chunk<K, V>>,
    spares: &mut Vec<Chunk<K, V>>,
    key: K,
    value: V,
)
    requires none { vec_len chunks.old ≡ 0 }
    requires spares { All IsSpare spares.old.items }
    requires spare { 0 < vec_len spares.old }
    requires room { vec_len spares.old ≤ vec_capacity chunks.old }
    ensures entries { chunk_entries chunks.new.items ≡ (key, value) ∷ [] }
    ensures each { All IsChunk chunks.new.items }
    ensures spares { All IsSpare spares.new.items }
    ensures len { vec_len chunks.new ≡ 1 }
    ensures spares_len { vec_len spares.new + 1 ≡ vec_len spares.old }
    ensures capacity { vec_capacity chunks.old ≤ vec_capacity chunks.new }
{
    let mut chunk = spares.pop().unwrap();
    chunk.push((key, value)).unwrap();
    chunks.push(chunk).unwrap();
}

// Puts the value at the key, and answers whether the key is new. It notes the place of the chunk as the next likely one.
pub(crate) fn put_among<K: Ord + Drop, V: Drop>(
    chunks: &mut Vec<Chunk<K, V>>,
    spares: &mut Vec<Chunk<K, V>>,
    counts: &mut Vec<usize>,
    likely: &Likely,
    key: K,
    value: V,
) -> bool
    requires chunks { AreChunks K.cmp chunks.old.items }
    requires spares { All IsSpare spares.old.items }
    requires spare { 0 < vec_len spares.old }
    requires room { vec_len chunks.old + vec_len spares.old ≤ vec_capacity chunks.old }
    requires counts { AreCounts counts.old.items chunks.old.items }
    requires counts_room { vec_len chunks.old + vec_len spares.old ≤ vec_capacity counts.old }
    ensures entries { chunk_entries chunks.new.items
        ≡ put K.cmp key value (chunk_entries chunks.old.items) }
    ensures grown { length (chunk_entries chunks.new.items)
        ≡ length (chunk_entries chunks.old.items) + cond result
        1 0 }
    ensures chunks { AreChunks K.cmp chunks.new.items }
    ensures spares { All IsSpare spares.new.items }
    ensures len { vec_len chunks.new + vec_len spares.new
        ≡ vec_len chunks.old + vec_len spares.old }
    ensures spares_len { vec_len spares.old ≤ vec_len spares.new + 1 }
    ensures capacity { vec_capacity chunks.old ≤ vec_capacity chunks.new }
    ensures counts { AreCounts counts.new.items chunks.new.items }
    ensures counts_capacity { vec_capacity counts.old ≤ vec_capacity counts.new }
{
    if chunks.is_empty() {
        put_alone(chunks, spares, key, value);
        count_blocks(chunks, counts);
        return true;
    }
    let home = roomy_home(chunks, spares, counts, &key, likely.chunk.get());
    likely.chunk.set(home);
    let is_new = put_in(&mut chunks[home], key, value, &likely.place);
    counts[block_of(home)] += usize::from(is_new);
    is_new
}

// Whether a key that fits in a chunk at a place is below the next chunk. It isn't compared with that where it wouldn't come
// last, since the entry after it is above it.
fn fits_before_next<K: Ord, V>(chunks: &[Chunk<K, V>], key: &K, home: usize, place: usize) -> bool
    requires chunks { AreChunks K.cmp chunks.now }
    requires within { home < length chunks.now }
    ensures { result ≡ true → HoldsAt (λ c. length c.items ≤ place
        → AreAbove K.cmp key.now (chunk_entries (drop (home + 1) chunks.now))) chunks.now home }
{
    if place < chunks[home].len() {
        return true;
    }
    is_below_next(chunks, key, home)
}

// Puts two values at two keys side by side, and notes the place of their chunk as the next likely one. It answers whether
// that could be done: both belong into one chunk, which has room for them, and no key stands between. Else nothing is changed.
pub(crate) fn put_both_among<K: Ord + Copy + Drop, V: Copy + Drop>(
    chunks: &mut Vec<Chunk<K, V>>,
    counts: &mut Vec<usize>,
    likely: &Likely,
    key: K,
    value: V,
    next: K,
    next_value: V,
) -> bool
    requires chunks { AreChunks K.cmp chunks.old.items }
    requires counts { AreCounts counts.old.items chunks.old.items }
    ensures entries { chunk_entries chunks.new.items ≡ cond result
        (put K.cmp next next_value (put K.cmp key value (chunk_entries chunks.old.items)))
        (chunk_entries chunks.old.items) }
    ensures grown { length (chunk_entries chunks.new.items)
        ≡ length (chunk_entries chunks.old.items) + cond result
        2 0 }
    ensures chunks { AreChunks K.cmp chunks.new.items }
    ensures len { vec_len chunks.new ≡ vec_len chunks.old }
    ensures capacity { vec_capacity chunks.old ≤ vec_capacity chunks.new }
    ensures counts { AreCounts counts.new.items chunks.new.items }
    ensures counts_capacity { vec_capacity counts.old ≤ vec_capacity counts.new }
{
    if chunks.is_empty() {
        return false;
    }
    let home = noted_home(chunks, &key, &likely.chunk);
    if chunks[home].len() > CHUNK - 2 {
        return false;
    }
    let Some(place) = gap_for_both(&chunks[home], &key, &next, &value, &likely.place) else {
        return false;
    };
    if !fits_before_next(chunks, &next, home, place) {
        return false;
    }
    insert_both(&mut chunks[home], place, (key, value), (next, next_value));
    likely.place.set(place + 1);
    counts[block_of(home)] += 2;
    true
}

// Puts the value at the key where another one stands, which goes. It answers whether that could be done: both belong into the
// likely chunk, and no key stands between the two. Else nothing is changed. No other chunk is tried, since the caller
// has mostly just looked at the entry that goes. No count changes, since as many entries stand in the chunk as before.
pub(crate) fn replace_among<K: Ord + Drop, V: Drop>(
    chunks: &mut Vec<Chunk<K, V>>,
    likely: usize,
    place: &Cell<usize>,
    gone: &K,
    key: K,
    value: V,
) -> bool
    requires { AreChunks K.cmp chunks.old.items }
    ensures entries { chunk_entries chunks.new.items ≡ cond result (put K.cmp key value
        (where_key K.cmp (λ k. not (eq_by_cmp K.cmp gone.now k)) (chunk_entries chunks.old.items)))
        (chunk_entries
        chunks.old.items) }
    ensures as_many { length (chunk_entries chunks.new.items)
        ≡ length (chunk_entries chunks.old.items) }
    ensures chunks { AreChunks K.cmp chunks.new.items }
    ensures len { vec_len chunks.new ≡ vec_len chunks.old }
    ensures capacity { vec_capacity chunks.old ≤ vec_capacity chunks.new }
    ensures counts { (ns : List ℕ) → AreCounts ns chunks.old.items → AreCounts ns chunks.new.items }
{
    if !is_home(chunks, gone, likely) || !is_home(chunks, &key, likely) {
        return false;
    }
    replace_in(&mut chunks[likely], gone, key, value, place)
}

// Takes an empty chunk out, and keeps it where there is room for it and few are kept. No list grows, since a removal
// asks for no memory.
fn retire_chunk<K: Drop, V: Drop>(
    chunks: &mut Vec<Chunk<K, V>>,
    spares: &mut Vec<Chunk<K, V>>,
    place: usize,
)
    requires within { place < vec_len chunks.old }
    requires empty { HoldsAt IsSpare chunks.old.items place }
    requires spares { All IsSpare spares.old.items }
    ensures chunks { chunks.new.items ≡ remove chunks.old.items place }
    ensures spares { All IsSpare spares.new.items }
    ensures len { vec_len chunks.new + vec_len spares.new
        ≤ vec_len chunks.old + vec_len spares.old }
    ensures spares_len { vec_len spares.old ≤ vec_len spares.new }
    ensures capacity { vec_capacity chunks.old ≤ vec_capacity chunks.new }
{
    let chunk = chunks.remove(place);
    if spares.len() < spares.capacity().min(SPARES) {
        spares.push(chunk).unwrap();
    }
}

// Takes the key out, and answers whether it was there. It notes the place of the chunk as the next likely one.
pub(crate) fn take_among<K: Ord + Drop, V: Drop>(
    chunks: &mut Vec<Chunk<K, V>>,
    spares: &mut Vec<Chunk<K, V>>,
    counts: &mut Vec<usize>,
    likely: &Likely,
    key: &K,
) -> bool
    requires chunks { AreChunks K.cmp chunks.old.items }
    requires spares { All IsSpare spares.old.items }
    requires counts { AreCounts counts.old.items chunks.old.items }
    requires counts_room { vec_len chunks.old + vec_len spares.old ≤ vec_capacity counts.old }
    ensures entries { chunk_entries chunks.new.items
        ≡ where_key K.cmp (λ k. not (eq_by_cmp K.cmp key.now k))
        (chunk_entries chunks.old.items) }
    ensures shrunk { length (chunk_entries chunks.new.items) + cond result 1 0 ≡ length
        (chunk_entries chunks.old.items) }
    ensures chunks { AreChunks K.cmp chunks.new.items }
    ensures spares { All IsSpare spares.new.items }
    ensures len { vec_len chunks.new + vec_len spares.new
        ≤ vec_len chunks.old + vec_len spares.old }
    ensures spares_len { vec_len spares.old ≤ vec_len spares.new }
    ensures capacity { vec_capacity chunks.old ≤ vec_capacity chunks.new }
    ensures counts { AreCounts counts.new.items chunks.new.items }
    ensures counts_capacity { vec_capacity counts.old ≤ vec_capacity counts.new }
{
    if chunks.is_empty() {
        return false;
    }
    let home = noted_home(chunks, key, &likely.chunk);
    // A chunk that has become empty goes, since each is found by its first key.
    let taken = take_from(&mut chunks[home], key, &likely.place);
    if chunks[home].is_empty() {
        retire_chunk(chunks, spares, home);
        count_blocks(chunks, counts);
    } else {
        counts[block_of(home)] -= usize::from(taken);
    }
    taken
}
