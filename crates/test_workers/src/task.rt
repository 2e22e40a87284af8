//! What workers are given to do.
use crate::turns::Order;
use pb_base::MAX_ENTRIES;

/// How many workers work, in which turns, on which tablets and texts.
#[derive(Clone, Copy)]
pub struct Task<'a> {
    pub order: Order,
    pub workers: u32,
    /// The last timestamp that was given out before.
    pub last: u64,
    /// How many entries the journal has room for.
    pub limit: usize,
    /// A letter for each tablet: `l`, a list, or `s`, a slab.
    pub sorts: &'a str,
    /// Which change of the tablets is refused for want of memory, from 0.
    pub refused: Option<usize>,
    pub manifest: &'a str,
    pub script: &'a str,
}

impl<'a> Task<'a> {
    /// The task that these words begin with.
    pub fn of(words: &'a [String]) -> Option<Task<'a>> {
        let [
            order,
            workers,
            last,
            limit,
            sorts,
            refused,
            manifest,
            script,
            ..
        ] = words
        else {
            return None;
        };
        Some(Task {
            order: Order::of(order.as_str())?,
            workers: workers.as_str().parse::<u32>().ok()?,
            last: last.as_str().parse::<u64>().ok()?,
            limit: limit.as_str().parse::<usize>().ok()?,
            sorts: sorts.as_str(),
            refused: refused.as_str().parse::<usize>().ok(),
            manifest: manifest.as_str(),
            script: script.as_str(),
        })
    }

    /// Two workers in no order over lists, with all timestamps and entries.
    pub fn of_two(manifest: &'a str, script: &'a str) -> Task<'a> {
        Task {
            order: Order::Free,
            workers: 2,
            last: 0,
            limit: MAX_ENTRIES,
            sorts: "ll",
            refused: None,
            manifest,
            script,
        }
    }
}
