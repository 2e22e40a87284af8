//! How workers wait for one another: at the lock, and after what they did in vain. No contract sees how long: that a worker
//! gets the lock isn't promised, and `bench/workers` measures the times.
ghost use Rattle.std.specs.Prelude.{◌≡◌, ◌<◌, true, false};
ghost use Rattle.pb_notify.specs.Runs.{need_of};
ghost use Rattle.pb_threads.specs.Runs.{has_ran};

use pb_notify::{JobEnd, Need, ObserverJob};
use std::sync::{Mutex, MutexGuard, Wait};
use std::thread;

// How often a worker looks whether the lock is free, and yields, before it sleeps at it: whoever sleeps has to be woken, and
// that takes longer than the call that it waits for.
const LOOKS: u32 = 1000;

// How often a thread yields after a try for each that was in vain, and how often at most, and after a run in vain. The limit
// isn't lower, since with one of 32 several workers took longer to change one row.
const TURNS: u32 = 16;

const MOST_TURNS: u32 = 512;

/// The lock, as soon as it is free. A worker that looked for it so often in vain sleeps until it is woken.
pub(crate) fn take_lock<'a, R: Wait, C>(rt: &R, shared: &'a Mutex<C>) -> MutexGuard<'a, C> {
    for _look in 0..LOOKS {
        if let Some(held) = shared.try_lock() {
            return held;
        }
        thread::yield_now();
    }
    shared.lock(rt)
}

// Whether a run is over, and committed.
fn has_ran(job: &ObserverJob) -> bool
    ensures { result ≡ has_ran (need_of job.now) }
{
    matches!(job.needs(), Need::Over(JobEnd::Ran(_)))
}

/// How often a worker yields after a run: not at all where it committed, so that those whose locks it met come to their ends
/// where it didn't.
pub(crate) fn turns_after(job: &ObserverJob) -> u32
    ensures ran { has_ran (need_of job.now) ≡ true → result ≡ 0 }
    ensures vain { has_ran (need_of job.now) ≡ false → 0 < result }
{
    if has_ran(job) { 0 } else { MOST_TURNS }
}

/// Lets others go on for so many turns.
pub(crate) fn yield_for(turns: u32) {
    for _turn in 0..turns {
        thread::yield_now();
    }
}

/// How often a worker yields after so many tries of a change, each in vain: the more often, the more there were.
pub(crate) fn turns_of(tries: u32) -> u32 {
    tries.saturating_mul(TURNS).min(MOST_TURNS)
}
