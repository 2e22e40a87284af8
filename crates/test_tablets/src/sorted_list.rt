//! Sorted lists in chunks beside plain ones: put in rising, falling and mixed order, one at a time and in pairs, looked up,
//! and taken out again.

use pb_memtablet::SortedList;
use std::alloc::{AllocError, Global};
use std::test::Fail;

#[derive(Clone, Copy)]
enum Order {
    Rising,
    Falling,
    Mixed,
}

// A key of n different even ones. 11 has no divisor in common with any n that is tried.
fn key_at(order: Order, i: u64, n: u64) -> u64 {
    let number = match order {
        Order::Rising => i,
        Order::Falling => n.saturating_sub(i),
        Order::Mixed => i.wrapping_mul(11) % n.max(1),
    };
    number.wrapping_mul(2)
}

// Whether the list returns its entries around a place as the plain one does.
fn is_same_at(list: &SortedList<u64, u64>, plain: &[(u64, u64)], place: usize) -> bool {
    let Some(entry) = plain.get(place).copied() else {
        return list.at(place).is_none();
    };
    let behind = plain.get(place.wrapping_add(1)).copied();
    let gap = entry.0.wrapping_add(1);
    let is_found = list.at(place) == Some(entry) && list.get(&entry.0) == Some(entry.1);
    let is_last = list.last_up_to(&entry.0) == Some(entry) && list.last_up_to(&gap) == Some(entry);
    let is_first = list.first_above(&entry.0) == behind && list.first_above(&gap) == behind;
    is_found && is_last && is_first && list.get(&gap).is_none()
}

// Whether all that the list returns is as from the plain one.
fn is_same(list: &SortedList<u64, u64>, plain: &[(u64, u64)]) -> bool {
    let mut is_same = list.len() == plain.len() && list.is_empty() == plain.is_empty();
    for place in 0..plain.len() {
        is_same = is_same && is_same_at(list, plain, place);
    }
    is_same && list.at(plain.len()).is_none()
}

fn put_in_plain(plain: &mut Vec<(u64, u64)>, key: u64, value: u64) -> Result<(), AllocError> {
    match plain.binary_search_by(|entry| entry.0.cmp(&key)) {
        Ok(i) => plain[i] = (key, value),
        Err(i) => plain.insert(i, (key, value))?,
    }
    Ok(())
}

fn take_out_of_plain(plain: &mut Vec<(u64, u64)>, key: u64) {
    if let Ok(i) = plain.binary_search_by(|entry| entry.0.cmp(&key)) {
        plain.remove(i);
    }
}

// Whether a list of n entries is as a plain one, and stays so until all are taken out.
fn is_as_plain(alloc: Global, order: Order, n: u64) -> Result<bool, AllocError> {
    let mut list = SortedList::new(alloc);
    let mut plain = Vec::new(alloc);
    for i in 0..n {
        let key = key_at(order, i, n);
        list.reserve(1)?;
        list.put(key, i);
        put_in_plain(&mut plain, key, i)?;
    }
    let mut is_plain = is_same(&list, &plain);
    for i in 0..n {
        let key = key_at(order, i, n);
        is_plain = is_plain && list.get(&key) == Some(i);
        list.take_out(&key);
        take_out_of_plain(&mut plain, key);
        is_plain = is_plain && list.get(&key).is_none() && list.len() == plain.len();
        if i % 512 == 0 {
            is_plain = is_plain && is_same(&list, &plain);
        }
    }
    Ok(is_plain && list.is_empty() && plain.is_empty())
}

// None, one, a chunk less one, a chunk, a chunk and one, some chunks, and some blocks of chunks.
const SIZES: [u64; 7] = [0, 1, 63, 64, 65, 1000, 5000];

fn are_as_plain(alloc: Global, order: Order) -> Result<bool, AllocError> {
    let mut are_plain = true;
    for n in SIZES {
        are_plain = is_as_plain(alloc, order, n)? && are_plain;
    }
    Ok(are_plain)
}

// Whether a list of n pairs, of which the second key is replaced by the next one, is as a plain one. The keys of a pair are so
// far apart.
fn are_pairs_as_plain(alloc: Global, order: Order, n: u64, apart: u64) -> Result<bool, AllocError> {
    let mut list = SortedList::new(alloc);
    let mut plain = Vec::new(alloc);
    for i in 0..n {
        let key = key_at(order, i, n).wrapping_mul(2);
        let second = key.wrapping_add(apart);
        let next = second.wrapping_add(1);
        list.reserve(3)?;
        list.put_both(key, i, second, n);
        put_in_plain(&mut plain, key, i)?;
        put_in_plain(&mut plain, second, n)?;
        list.replace(&second, next, i);
        take_out_of_plain(&mut plain, second);
        put_in_plain(&mut plain, next, i)?;
    }
    Ok(is_same(&list, &plain))
}

#[test]
fn pairs_are_as_in_a_plain_list(rt: HostRuntime) -> Result<(), Fail> {
    for order in [Order::Rising, Order::Falling, Order::Mixed] {
        for n in [1, 31, 32, 33, 1000] {
            // Side by side, and with other keys between.
            for apart in [1, 401] {
                assert!(rt;
                    are_pairs_as_plain(rt.alloc(), order, n, apart)?,
                    "{n} {apart}"
                );
            }
        }
    }
    Ok(())
}

#[test]
fn rising_keys_are_as_in_a_plain_list(rt: HostRuntime) -> Result<(), Fail> {
    assert!(rt; are_as_plain(rt.alloc(), Order::Rising)?);
    Ok(())
}

#[test]
fn falling_keys_are_as_in_a_plain_list(rt: HostRuntime) -> Result<(), Fail> {
    assert!(rt; are_as_plain(rt.alloc(), Order::Falling)?);
    Ok(())
}

#[test]
fn mixed_keys_are_as_in_a_plain_list(rt: HostRuntime) -> Result<(), Fail> {
    assert!(rt; are_as_plain(rt.alloc(), Order::Mixed)?);
    Ok(())
}

#[test]
fn a_clear_list_keeps_its_room(rt: HostRuntime) -> Result<(), Fail> {
    let mut list = SortedList::new(rt.alloc());
    list.reserve(3)?;
    list.put(5_u64, 1_u64);
    list.put(7, 2);
    list.put(5, 3);
    assert!(rt; list.at(0) == Some((5, 3)) && list.len() == 2);
    list.clear();
    assert!(rt; list.is_empty() && list.at(0).is_none());
    Ok(())
}
