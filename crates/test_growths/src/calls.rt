//! Each kind of step, called of shared tables and taken by states.
use crate::observers::{open_watched, watchers};
use crate::refusals::Refusals;
use crate::same::are_states_same;
use crate::steps::steps;
use crate::swaps::are_swapped;
use crate::twins::{Twins, call_all, call_both, close, is_room_made, two_tables};
use pb_base::Ts;
use pb_memtablet::EitherTablet;
use pb_state::State;
use pb_steps::{Answer, Step};
use std::alloc::Global;
use test_fixtures::Unready;

// Looks for marks until the journal is as long as its room, and with it book and list of the seat.
fn is_filled(twins: &mut Twins, refusals: &mut Refusals) -> bool {
    for _ in 0..32_u32 {
        if matches!(twins.shared.journal().len(), 4 | 8 | 16 | 32) {
            return true;
        }
        if call_both(twins, &Step::NextMark(None), refusals).is_none() {
            return false;
        }
    }
    false
}

// Whether the last of these steps is answered after the others, where journal, book and list have
// to grow for it.
fn is_last_called(alloc: Global, steps: &[Step], refusals: &mut Refusals) -> Result<bool, Unready> {
    let Some((last, before)) = steps.split_last() else {
        return Ok(true);
    };
    let mut twins = open_watched(alloc)?;
    let held = call_all(&mut twins, before, refusals)
        && is_filled(&mut twins, refusals)
        && call_both(&mut twins, last, refusals).is_some();
    close(twins);
    Ok(held)
}

/// `Shared::call` with each step in turn, and then `Shared::swap`.
pub fn shared_calls(alloc: Global, refusals: &mut Refusals) -> Result<bool, Unready> {
    let steps = steps(alloc)?;
    let mut twins = open_watched(alloc)?;
    let held = call_all(&mut twins, &steps, refusals)
        && are_swapped(
            alloc,
            &mut twins.shared,
            &twins.other,
            "Shared::swap",
            refusals,
        );
    close(twins);
    Ok(held)
}

/// `Shared::call` with each step, where it has to grow.
pub fn shared_grows(alloc: Global, refusals: &mut Refusals) -> Result<bool, Unready> {
    let steps = steps(alloc)?;
    for place in 0..steps.len() {
        if !is_last_called(alloc, &steps[..place + 1], refusals)? {
            return Ok(false);
        }
    }
    Ok(true)
}

// Whether room is made before each of so many calls, and each is answered.
fn are_rooms_made(twins: &mut Twins, refusals: &mut Refusals) -> bool {
    for _ in 0..32_u32 {
        if !is_room_made(twins, refusals)
            || call_both(twins, &Step::NextMark(None), refusals).is_none()
        {
            return false;
        }
    }
    true
}

/// `Seat::make_room` before calls, as a worker makes it before it takes the lock.
pub fn seats_make_room(alloc: Global, refusals: &mut Refusals) -> Result<bool, Unready> {
    let mut twins = open_watched(alloc)?;
    let held = are_rooms_made(&mut twins, refusals);
    close(twins);
    Ok(held)
}

// The answer of a step; none where it or memory for it is refused.
fn taken(state: &mut State<EitherTablet>, step: &Step) -> Option<Answer> {
    if state.refused(0, step).is_some() {
        return None;
    }
    match state.take(0, step) {
        Ok(answer) => Some(answer),
        Err(_) => None,
    }
}

// The answer of a step, also where it is refused once; what the state is then, the other is too.
fn first_taken(
    state: &mut State<EitherTablet>,
    other: &State<EitherTablet>,
    step: &Step,
    refusals: &mut Refusals,
) -> Option<Answer> {
    if let Some(answer) = taken(state, step) {
        return Some(answer);
    }
    refusals.note_step("State::take", step);
    if are_states_same(state, other) {
        taken(state, step)
    } else {
        None
    }
}

// The same of the other state, which takes the step after the first.
fn other_taken(
    other: &mut State<EitherTablet>,
    step: &Step,
    refusals: &mut Refusals,
) -> Option<Answer> {
    if let Some(answer) = taken(other, step) {
        return Some(answer);
    }
    refusals.note_step("State::take", step);
    taken(other, step)
}

fn takes(
    state: &mut State<EitherTablet>,
    other: &mut State<EitherTablet>,
    step: &Step,
    refusals: &mut Refusals,
) -> bool {
    let Some(answer) = first_taken(state, other, step, refusals) else {
        return false;
    };
    let Some(told) = other_taken(other, step, refusals) else {
        return false;
    };
    told == answer && are_states_same(state, other)
}

fn all_taken(
    state: &mut State<EitherTablet>,
    other: &mut State<EitherTablet>,
    steps: &[Step],
    refusals: &mut Refusals,
) -> bool {
    for step in steps {
        if !takes(state, other, step, refusals) {
            return false;
        }
    }
    true
}

/// `State::take`, and then `State::swap`: a state where one is refused once stays as another is, for which it isn't.
pub fn states_take(alloc: Global, refusals: &mut Refusals) -> Result<bool, Unready> {
    let steps = steps(alloc)?;
    let (watchers, others) = (watchers(alloc)?, watchers(alloc)?);
    let (first, second) = two_tables(alloc)?;
    let mut state = State::new(alloc, first, watchers, 1, Ts(0));
    let mut other = State::new(alloc, second, others, 1, Ts(0));
    let held = all_taken(&mut state, &mut other, &steps, refusals)
        && are_swapped(alloc, &mut state, &other, "State::swap", refusals);
    state.close();
    other.close();
    Ok(held)
}
