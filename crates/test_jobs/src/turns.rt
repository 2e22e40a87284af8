//! Turns: what a job does next.
ghost use Rattle.std.specs.Prelude.{◌≡◌};

use crate::jobs::{Job, all_calls, number_of};
use pb_base::{Cell, Column, ObserverNo, Row};
use pb_core::{Seat, Shared};
use pb_notify::{JobEnd, Need, ObserverJob};
use pb_steps::Step;
use pb_store::Tablet;
use std::alloc::Global;

// Whether a run does so many instructions.
fn computes(alloc: Global, job: &mut ObserverJob, count: u32) -> bool {
    for _ in 0..count {
        if job.needs() != Need::Local || job.local(alloc).is_err() {
            return false;
        }
    }
    true
}

// Whether a run does all instructions up to its next ask or its exit.
fn follows(alloc: Global, job: &mut ObserverJob) -> bool {
    job.needs() == Need::Local && job.follow(alloc).is_ok() && job.needs() != Need::Local
}

// The end that a word names.
fn end_of(word: &str) -> Option<JobEnd> {
    match word {
        "clean" => Some(JobEnd::Clean),
        "conflicted" => Some(JobEnd::Conflicted),
        "lost" => Some(JobEnd::Lost),
        "blocked" => Some(JobEnd::Blocked),
        _ => Some(JobEnd::Ran(word.parse::<u64>().ok()?)),
    }
}

// Whether a run is over, with the end that a word names.
fn has_end(job: &ObserverJob, word: &str) -> bool {
    match end_of(word) {
        Some(end) => job.needs() == Need::Over(end) && job.next().is_none(),
        None => false,
    }
}

// The cell that seat 0 settles.
fn settled_cell(letter: u8) -> Option<Cell> {
    if letter == b'a' {
        return Some(Cell::Ack(ObserverNo::new(0)?, Row(7), Column::new(0)?));
    }
    Some(Cell::Data(Row(7), Column::new(number_of(letter))?))
}

// Whether seat 0 settles a cell.
fn settles<T: Tablet>(shared: &mut Shared<T>, seats: &mut Vec<Seat>, letter: u8) -> Option<bool> {
    let cell = settled_cell(letter)?;
    let seat = seats.first_mut()?;
    Some(shared.call(seat, &Step::Settle(cell)).is_ok())
}

// The job of this place.
fn job_at<'a>(jobs: &'a mut Vec<Job>, place: &str) -> Option<&'a mut Job> {
    let place = place.parse::<usize>().ok()?;
    jobs.get_mut(place)
}

// The run of this place.
fn run_at<'a>(jobs: &'a mut Vec<Job>, place: &str) -> Option<&'a mut ObserverJob> {
    match job_at(jobs, place)? {
        Job::Run(_, job) => Some(job),
        Job::Change(_) => None,
    }
}

// Whether a run goes as the turn states.
fn runs(alloc: Global, jobs: &mut Vec<Job>, turn: &str) -> Option<bool> {
    if let Some((place, count)) = turn.split_once('/') {
        let count = count.parse::<u32>().ok()?;
        return Some(computes(alloc, run_at(jobs, place)?, count));
    }
    if let Some((place, end)) = turn.split_once('=') {
        return Some(has_end(run_at(jobs, place)?, end));
    }
    let place = turn.strip_suffix('>')?;
    Some(follows(alloc, run_at(jobs, place)?))
}

// Whether it goes as the turn states.
fn goes<T: Tablet>(
    alloc: Global,
    shared: &mut Shared<T>,
    seats: &mut Vec<Seat>,
    jobs: &mut Vec<Job>,
    turn: &str,
) -> Option<bool> {
    if let [b's', letter] = turn.as_bytes() {
        return settles(shared, seats, *letter);
    }
    if let Some((place, count)) = turn.split_once(':') {
        let count = count.parse::<u32>().ok()?;
        return Some(all_calls(shared, seats, job_at(jobs, place)?, count));
    }
    runs(alloc, jobs, turn)
}

/// Takes the turns, and returns the first that doesn't go as it states.
pub fn stopped_at<'a, T: Tablet>(
    alloc: Global,
    shared: &mut Shared<T>,
    seats: &mut Vec<Seat>,
    jobs: &mut Vec<Job>,
    turns: &'a str,
) -> Option<&'a str> {
    for turn in turns.split_whitespace() {
        if goes(alloc, shared, seats, jobs, turn) != Some(true) {
            return Some(turn);
        }
    }
    None
}
