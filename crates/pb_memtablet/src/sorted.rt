//! Lists of keys and values, sorted by key: the searches and changes of one chunk.
ghost use Rattle.std.specs.Prelude.{◌≡◌, ◌<◌, ◌≤◌, ◌+◌, ◌-◌, true, IfOk, IfErr, IfSome, length, IsTrue, cond, vec_len, vec_capacity, not};
ghost use Rattle.std.specs.List.{HoldsAt, insert, remove};
ghost use Rattle.std.specs.declared.cmp.Ordering.TheVariants.{Greater};
ghost use Rattle.std.specs.Ordering.{eq_by_cmp};
ghost use Rattle.std.specs.FinMap.{find, put, is_sorted};
ghost use Rattle.std.specs.FinMap.Entries.{where_key};
ghost use Rattle.pb_memtablet.specs.Places.{IsFound, IsGap, IsCut};

use std::cell::Cell;
use std::cmp::Ordering;

// How many times as many places a search passes over at each further look: none at first, and then 1, 4 and 16, since the
// next key mostly stands near the last. Steps that only double take more looks at a random place.
const GROWTH: usize = 4;

// Where the key stands, or where it would stand. The likely place, which can be any number, is looked at first. From there
// the steps grow, but to half of what is left at most, so that the search ends by halves.
fn search_from<K: Ord, V>(entries: &[(K, V)], key: &K, likely: usize) -> Result<usize, usize>
    requires { IsTrue (is_sorted K.cmp entries.now) }
    ensures found { IfOk result (IsFound K.cmp entries.now key.now) }
    ensures gap { IfErr result (IsGap K.cmp entries.now key.now) }
    ensures inside { IfOk result (λ i. i < length entries.now) }
    ensures within { IfErr result (λ i. i ≤ length entries.now) }
{
    let mut low = 0;
    let mut high = entries.len();
    let mut next = likely.min(high.saturating_sub(1));
    let mut passed = 0;
    while low < high {
        match key.cmp(&entries[next].0) {
            Ordering::Equal => return Ok(next),
            Ordering::Greater => {
                low = next + 1;
                next = low + passed.min((high - low) / 2);
            }
            Ordering::Less => {
                high = next;
                next = high.saturating_sub(1 + passed.min((high - low) / 2));
            }
        }
        passed = passed.saturating_mul(GROWTH).max(1);
    }
    Err(low)
}

// Where the key stands, or where it would stand, noted as the next likely place. A gap is noted too, since a put there
// may follow.
fn spot<K: Ord, V>(entries: &[(K, V)], key: &K, likely: &Cell<usize>) -> Result<usize, usize>
    requires { IsTrue (is_sorted K.cmp entries.now) }
    ensures found { IfOk result (IsFound K.cmp entries.now key.now) }
    ensures gap { IfErr result (IsGap K.cmp entries.now key.now) }
    ensures inside { IfOk result (λ i. i < length entries.now) }
    ensures within { IfErr result (λ i. i ≤ length entries.now) }
{
    let spot = search_from(entries, key, likely.get());
    likely.set(match spot {
        Ok(i) => i,
        Err(i) => i,
    });
    spot
}

// The value at the key, if it stands there.
pub(crate) fn look_up<K: Ord, V: Copy>(
    entries: &[(K, V)],
    key: &K,
    likely: &Cell<usize>,
) -> Option<V>
    requires { IsTrue (is_sorted K.cmp entries.now) }
    ensures { result ≡ find K.cmp key.now entries.now }
{
    match spot(entries, key, likely) {
        Ok(i) => Some(entries[i].1),
        Err(_) => None,
    }
}

// The place of the first key above the given one.
pub(crate) fn place_above<K: Ord, V>(entries: &[(K, V)], key: &K, likely: &Cell<usize>) -> usize
    requires { IsTrue (is_sorted K.cmp entries.now) }
    ensures cut { IsCut K.cmp entries.now key.now result }
    ensures within { result ≤ length entries.now }
{
    match spot(entries, key, likely) {
        Ok(i) => i + 1,
        Err(i) => i,
    }
}

// Puts the value at the key, and answers whether the key is new. There is room for one entry more.
pub(crate) fn put_in<K: Ord + Drop, V: Drop>(
    entries: &mut Vec<(K, V)>,
    key: K,
    value: V,
    likely: &Cell<usize>,
) -> bool
    requires sorted { IsTrue (is_sorted K.cmp entries.old.items) }
    requires room { vec_len entries.old < vec_capacity entries.old }
    ensures items { entries.new.items ≡ put K.cmp key value entries.old.items }
    ensures capacity { vec_capacity entries.old ≤ vec_capacity entries.new }
    ensures len { vec_len entries.new ≡ vec_len entries.old + cond result 1 0 }
{
    match spot(entries, &key, likely) {
        Ok(i) => {
            entries[i].1 = value;
            false
        }
        Err(i) => {
            entries.insert(i, (key, value)).unwrap();
            true
        }
    }
}

// Takes the key out, and answers whether it was there.
pub(crate) fn take_from<K: Ord + Drop, V: Drop>(
    entries: &mut Vec<(K, V)>,
    key: &K,
    likely: &Cell<usize>,
) -> bool
    requires { IsTrue (is_sorted K.cmp entries.old.items) }
    ensures items { entries.new.items ≡ where_key K.cmp
        (λ k. not (eq_by_cmp K.cmp key.now k)) entries.old.items }
    ensures capacity { vec_capacity entries.old ≤ vec_capacity entries.new }
    ensures len { vec_len entries.new + cond result 1 0 ≡ vec_len entries.old }
{
    match spot(entries, key, likely) {
        Ok(i) => {
            entries.remove(i);
            true
        }
        Err(_) => false,
    }
}

// Whether the key is above the one before a place.
fn is_above_previous<K: Ord, V>(entries: &[(K, V)], place: usize, key: &K) -> bool
    requires { place ≤ length entries.now }
    ensures { result ≡ true → 0 < place → HoldsAt
        (λ e. K.cmp key.now e.0 ≡ Greater) entries.now (place - 1) }
{
    if place == 0 {
        return true;
    }
    key.cmp(&entries[place - 1].0).is_gt()
}

// Whether the key belongs where another one stands: above the key before it, and below the one after it.
fn fits_at<K: Ord, V>(entries: &[(K, V)], place: usize, key: &K) -> bool
    requires sorted { IsTrue (is_sorted K.cmp entries.now) }
    requires within { place < length entries.now }
    ensures { result ≡ true → IsGap K.cmp (remove entries.now place) key.now place }
{
    if !is_above_previous(entries, place, key) {
        return false;
    }
    if place == entries.len() - 1 {
        return true;
    }
    key.cmp(&entries[place + 1].0).is_lt()
}

// Puts the value at the key where another one stands, which goes. It answers whether that could be done: the other one is
// there, and no key stands between the two. Else nothing is changed, so that the caller may still take out and put.
pub(crate) fn replace_in<K: Ord + Drop, V: Drop>(
    entries: &mut Vec<(K, V)>,
    gone: &K,
    key: K,
    value: V,
    likely: &Cell<usize>,
) -> bool
    requires { IsTrue (is_sorted K.cmp entries.old.items) }
    ensures items { entries.new.items ≡ cond result
        (put K.cmp key value (where_key K.cmp
        (λ k. not (eq_by_cmp K.cmp gone.now k)) entries.old.items))
        entries.old.items }
    ensures capacity { vec_capacity entries.old ≤ vec_capacity entries.new }
    ensures len { vec_len entries.new ≡ vec_len entries.old }
{
    let Ok(i) = spot(entries, gone, likely) else {
        return false;
    };
    if !fits_at(entries, i, &key) {
        return false;
    }
    entries[i] = (key, value);
    true
}

// Whether the next key belongs right after the key, which would stand at a place.
fn fits_behind<K: Ord, V>(entries: &[(K, V)], place: usize, key: &K, next: &K, value: &V) -> bool
    requires { IsGap K.cmp entries.now key.now place }
    ensures { result ≡ true → IsGap K.cmp (insert entries.now place (key.now, value.now)) next.now
        (place + 1) }
{
    if !next.cmp(key).is_gt() {
        return false;
    }
    if place >= entries.len() {
        return true;
    }
    next.cmp(&entries[place].0).is_lt()
}

// Puts two elements in side by side, and moves what stands from there on once, where two inserts would move it twice.
pub(crate) fn insert_both<T: Copy + Drop>(elements: &mut Vec<T>, place: usize, first: T, second: T)
    requires within { place ≤ vec_len elements.old }
    requires room { vec_len elements.old + 2 ≤ vec_capacity elements.old }
    ensures items { elements.new.items ≡ insert (insert elements.old.items place first)
        (place + 1) second }
    ensures capacity { vec_capacity elements.old ≤ vec_capacity elements.new }
    ensures len { vec_len elements.new ≡ vec_len elements.old + 2 }
{
    // What is pushed only makes the list longer, since both places are written once the rest has moved.
    let end = elements.len();
    elements.push(first).unwrap();
    elements.push(second).unwrap();
    elements.copy_within(place..end, place + 2);
    elements[place] = first;
    elements[place + 1] = second;
}

// Where two keys would stand side by side, if they would: neither is there, and no key stands between the two. It makes
// one search for both.
pub(crate) fn gap_for_both<K: Ord, V>(
    entries: &[(K, V)],
    key: &K,
    next: &K,
    value: &V,
    likely: &Cell<usize>,
) -> Option<usize>
    requires { IsTrue (is_sorted K.cmp entries.now) }
    ensures first { IfSome result (IsGap K.cmp entries.now key.now) }
    ensures second { IfSome result (λ i. IsGap K.cmp
        (insert entries.now i (key.now, value.now)) next.now (i + 1)) }
    ensures within { IfSome result (λ i. i ≤ length entries.now) }
{
    let Err(i) = spot(entries, key, likely) else {
        return None;
    };
    if !fits_behind(entries, i, key, next, value) {
        return None;
    }
    Some(i)
}
