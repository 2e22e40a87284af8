//! The turns that workers take: a gate holds a seat until another has come somewhere.
use crate::tablets::{Count, no_changes};
use crate::task::Task;
use pb_base::NoMemory;
use pb_steps::Step;
use pb_threads::Gate;
use std::alloc::Global;
use std::sync::atomic::{AtomicU64, AtomicUsize, Ordering};
use std::thread;
use std::time::{Clock, Duration};

// For at most so many turns of a millisecond a seat is held.
const MAX_TURNS: u32 = 10_000;

/// In which turns seats work.
#[derive(Clone, Copy, PartialEq, Eq)]
pub enum Order {
    /// In none.
    Free,
    /// Seat 2's first step waits until seat 1 asks for its second prewrite, and that until seat 2 passes again after its commit.
    Crossing,
    /// Seat 2's first step waits until seat 1 asks for its stamp, and that until seat 2 asks for a mark.
    Stubborn,
    /// The first `NextMark` of each waits until both asked for one, and then the first declaration of a run of each until both
    /// asked for that.
    Together,
    /// The first step of each worker waits until all are there.
    Gathered,
    /// The end of the first tablet waits until seat 1 asks for its stamp, and that until the second spare is changed.
    Swapping,
}

impl Order {
    /// The turns of this name.
    pub fn of(word: &str) -> Option<Order> {
        match word {
            "free" => Some(Order::Free),
            "crossing" => Some(Order::Crossing),
            "stubborn" => Some(Order::Stubborn),
            "together" => Some(Order::Together),
            "gathered" => Some(Order::Gathered),
            "swapping" => Some(Order::Swapping),
            _ => None,
        }
    }
}

/// How far seats have come in an order, how often each passed the gate, and whether a hold ran out.
#[derive(Drop)]
pub struct Marks {
    order: Order,
    reached: AtomicU64,
    other: AtomicU64,
    count: AtomicU64,
    late: AtomicU64,
    // Whether seats 1 and 2 have come so far.
    first: [AtomicU64; 2],
    second: [AtomicU64; 2],
    passed: Vec<AtomicU64>,
    // What the end of the first tablet waits for, and how often the second spare was changed.
    until: Count,
    spare: Option<Count>,
}

impl Marks {
    /// Those of a task before it begins, beside spares whose changes are counted so.
    pub fn new(alloc: Global, task: &Task, counts: &[Count]) -> Result<Marks, NoMemory> {
        let mut passed = Vec::new(alloc);
        for _ in 0..=task.workers {
            passed.push(AtomicU64::new(0))?;
        }
        let until = no_changes(alloc)?;
        let spare = match counts.get(1) {
            Some(count) => Some(count.clone()?),
            None => None,
        };
        Ok(Marks {
            order: task.order,
            reached: AtomicU64::new(0),
            other: AtomicU64::new(0),
            count: AtomicU64::new(0),
            late: AtomicU64::new(0),
            first: [AtomicU64::new(0), AtomicU64::new(0)],
            second: [AtomicU64::new(0), AtomicU64::new(0)],
            passed,
            until,
            spare,
        })
    }

    /// Whether no hold ran out.
    pub fn are_in_time(&self) -> bool {
        self.late.load(Ordering::SeqCst) == 0 && self.until.load(Ordering::SeqCst) < 1_000
    }

    /// How often each seat passed the gate.
    pub fn passed(&self) -> &[AtomicU64] {
        &self.passed
    }

    /// What the end of the first tablet waits for, in turns that have it wait.
    pub fn until(&self) -> Option<&Count> {
        if self.order == Order::Swapping {
            Some(&self.until)
        } else {
            None
        }
    }

    // Waits until the number is there. Once a hold ran out, nobody is held any more.
    fn hold<R: Clock>(&self, rt: &R, flag: &AtomicU64, number: u64) {
        for _ in 0..MAX_TURNS {
            if flag.load(Ordering::SeqCst) >= number || !self.are_in_time() {
                return;
            }
            thread::sleep(rt, Duration::from_millis(1));
        }
        self.late.store(1, Ordering::SeqCst);
    }

    // Waits until something was changed.
    fn hold_for_change<R: Clock>(&self, rt: &R, changes: &AtomicUsize) {
        for _ in 0..MAX_TURNS {
            if changes.load(Ordering::SeqCst) > 0 || !self.are_in_time() {
                return;
            }
            thread::sleep(rt, Duration::from_millis(1));
        }
        self.late.store(1, Ordering::SeqCst);
    }

    fn pass_crossing<R: Clock>(&self, rt: &R, seat: u32, step: &Step) {
        match (seat, step) {
            (1, Step::Prewrite(_, _)) => {
                if self.count.fetch_add(1, Ordering::SeqCst) == 1 {
                    self.reached.store(1, Ordering::SeqCst);
                    self.hold(rt, &self.other, 2);
                }
            }
            (2, Step::Begin(_)) => self.hold(rt, &self.reached, 1),
            (2, Step::CommitPrimary(_)) => self.other.store(1, Ordering::SeqCst),
            (2, _) => {
                if self.other.load(Ordering::SeqCst) == 1 {
                    self.other.store(2, Ordering::SeqCst);
                }
            }
            _ => {}
        }
    }

    fn pass_stubborn<R: Clock>(&self, rt: &R, seat: u32, step: &Step) {
        match (seat, step) {
            (1, Step::Stamp(_)) => {
                self.reached.store(1, Ordering::SeqCst);
                self.hold(rt, &self.other, 1);
            }
            (2, Step::Begin(_)) => self.hold(rt, &self.reached, 1),
            (2, Step::NextMark(_)) => self.other.store(1, Ordering::SeqCst),
            _ => {}
        }
    }

    fn pass_together<R: Clock>(&self, rt: &R, seat: u32, step: &Step) {
        if seat == 0 || seat > 2 {
            return;
        }
        let place = (seat - 1) as usize;
        let in_passes = self.first[place].load(Ordering::SeqCst) == 1;
        match step {
            Step::NextMark(_) => {
                if self.first[place].swap(1, Ordering::SeqCst) == 0 {
                    self.hold(rt, &self.first[1 - place], 1);
                }
            }
            Step::Declare(_, _) => {
                if in_passes && self.second[place].swap(1, Ordering::SeqCst) == 0 {
                    self.hold(rt, &self.second[1 - place], 1);
                }
            }
            _ => {}
        }
    }

    fn pass_gathered<R: Clock>(&self, rt: &R, seat: u32, is_first: bool) {
        if seat > 0 && is_first {
            self.count.fetch_add(1, Ordering::SeqCst);
            self.hold(rt, &self.count, self.passed.len().saturating_sub(1) as u64);
        }
    }

    fn pass_swapping<R: Clock>(&self, rt: &R, seat: u32, step: &Step) {
        if let (1, Step::Stamp(_), Some(spare)) = (seat, step, &self.spare) {
            if self.until.load(Ordering::SeqCst) == 0 {
                self.until.fetch_add(1, Ordering::SeqCst);
            }
            self.hold_for_change(rt, spare);
        }
    }

    // Counts a pass of a seat. Whether it is the first.
    fn is_first(&self, seat: u32) -> bool {
        match self.passed.get(seat as usize) {
            Some(count) => count.fetch_add(1, Ordering::SeqCst) == 0,
            None => false,
        }
    }

    fn pass<R: Clock>(&self, rt: &R, seat: u32, step: &Step) {
        let is_first = self.is_first(seat);
        match self.order {
            Order::Free => {}
            Order::Crossing => self.pass_crossing(rt, seat, step),
            Order::Stubborn => self.pass_stubborn(rt, seat, step),
            Order::Together => self.pass_together(rt, seat, step),
            Order::Gathered => self.pass_gathered(rt, seat, is_first),
            Order::Swapping => self.pass_swapping(rt, seat, step),
        }
    }
}

/// A gate that keeps an order.
#[derive(Drop)]
pub struct Turns<'a, R: Clock + Sync> {
    pub rt: &'a R,
    pub marks: Marks,
}

impl<'a, R: Clock + Sync> Gate for Turns<'a, R> {
    fn pass(&self, seat: u32, step: &Step) {
        self.marks.pass(self.rt, seat, step);
    }
}
