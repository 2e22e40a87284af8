//! What `finish` accepts, and that it hands back what it refuses.
//!
//! An operation is a word: `-P` takes the seat at a place aside, and `+` puts the last such seat
//! after the others; `oP` puts that of the other run's seats after them, and `xP` ends one; `sPQ`
//! exchanges two. `f` compares, which has to be refused.
use crate::account::is_end_told;
use crate::tablets::{parts_of, place_of};
use crate::task::Task;
use crate::work::do_work;
use pb_core::{Seat, Shared};
use pb_ending::finish;
use pb_threads::{Open, Worked};
use std::alloc::Global;
use std::sync::Wait;
use std::thread::Threads;
use test_fixtures::CountedTablet;

// Table and seats after a script, the seats that were taken aside, and those of another run.
struct Moved {
    shared: Shared<CountedTablet>,
    seats: Vec<Seat>,
    aside: Vec<Seat>,
    others: Vec<Seat>,
}

// Moves the seat at a place of a list to the end of another list.
fn is_moved(from: &mut Vec<Seat>, place: usize, to: &mut Vec<Seat>) -> bool {
    if place >= from.len() {
        return false;
    }
    let seat = from.remove(place);
    to.push(seat).is_ok()
}

fn is_put_back(moved: &mut Moved) -> bool {
    match moved.aside.pop() {
        Some(seat) => moved.seats.push(seat).is_ok(),
        None => false,
    }
}

fn is_ended(seats: &mut Vec<Seat>, place: usize) -> bool {
    if place >= seats.len() {
        return false;
    }
    let _ = seats.remove(place);
    true
}

fn is_exchanged(seats: &mut Vec<Seat>, first: usize, second: usize) -> bool {
    if first >= seats.len() || second >= seats.len() {
        return false;
    }
    seats.swap(first, second);
    true
}

// Whether an operation on the seats alone was done.
fn is_done(moved: &mut Moved, operation: &[u8]) -> bool {
    match operation {
        [b'+'] => is_put_back(moved),
        [b'-', place] => is_moved(&mut moved.seats, place_of(*place), &mut moved.aside),
        [b'o', place] => is_moved(&mut moved.others, place_of(*place), &mut moved.seats),
        [b'x', place] => is_ended(&mut moved.seats, place_of(*place)),
        [b's', first, second] => {
            is_exchanged(&mut moved.seats, place_of(*first), place_of(*second))
        }
        _ => false,
    }
}

// The number of each seat, and how much it received.
fn lists_of(alloc: Global, seats: &[Seat]) -> Option<Vec<(u32, usize)>> {
    let mut lists = Vec::new(alloc);
    for seat in seats {
        lists.push((seat.number(), seat.received().len())).ok()?;
    }
    Some(lists)
}

// What is handed back, as it was, where `finish` refuses table and seats.
fn refuse_moved(alloc: Global, moved: Moved) -> Option<Moved> {
    let Moved {
        shared,
        seats,
        aside,
        others,
    } = moved;
    let entries = shared.journal().len();
    let lists = lists_of(alloc, &seats);
    match finish(shared, seats) {
        Ok(ended) => {
            ended.close();
            None
        }
        Err((shared, seats)) => {
            if shared.journal().len() == entries && lists_of(alloc, &seats) == lists {
                return Some(Moved {
                    shared,
                    seats,
                    aside,
                    others,
                });
            }
            shared.close();
            None
        }
    }
}

// What is there after an operation, if it was done.
fn after(alloc: Global, moved: Moved, operation: &[u8]) -> Option<Moved> {
    if matches!(operation, [b'f']) {
        return refuse_moved(alloc, moved);
    }
    let mut moved = moved;
    if is_done(&mut moved, operation) {
        return Some(moved);
    }
    let Moved {
        shared,
        seats: _,
        aside: _,
        others: _,
    } = moved;
    shared.close();
    None
}

// What is there after all operations, if they were done.
fn after_all(alloc: Global, moved: Moved, operations: &[String]) -> Option<Moved> {
    let mut moved = moved;
    for operation in operations {
        moved = match after(alloc, moved, operation.as_bytes()) {
            Some(next) => next,
            None => return None,
        };
    }
    Some(moved)
}

// Table and seats after a task.
fn left_of<R: Threads + Wait + Sync>(
    rt: &R,
    alloc: Global,
    task: &Task,
) -> Option<(Shared<CountedTablet>, Vec<Seat>)> {
    let parts = parts_of(alloc, task, None).ok()?;
    let Worked {
        shared,
        seats,
        refusals: _,
        unfinished: _,
    } = do_work(rt, alloc, task, parts, Vec::new(alloc), &Open).ok()?;
    Some((shared, seats))
}

// What two workers leave of a script, with the seats of two that did another.
fn work_of_two<R: Threads + Wait + Sync>(
    rt: &R,
    alloc: Global,
    first: &Task,
    second: &Task,
) -> Option<Moved> {
    let (other, others) = left_of(rt, alloc, second)?;
    other.close();
    let (shared, seats) = left_of(rt, alloc, first)?;
    Some(Moved {
        shared,
        seats,
        aside: Vec::new(alloc),
        others,
    })
}

/// Whether the operations that the words name were done, and the end was printed.
pub fn are_told<R: Threads + Wait + Sync>(
    threads: &R,
    rt: &HostRuntime,
    words: &[String],
) -> Option<bool> {
    let [manifest, script, other, operations @ ..] = words else {
        return None;
    };
    let first = Task::of_two(manifest.as_str(), script.as_str());
    let second = Task::of_two(manifest.as_str(), other.as_str());
    let moved = work_of_two(threads, rt.alloc(), &first, &second)?;
    let Moved {
        shared,
        seats,
        aside: _,
        others: _,
    } = after_all(rt.alloc(), moved, operations)?;
    Some(is_end_told(rt, shared, seats))
}
