//! The words of a line, read from left to right, so that the first field at fault is the one that
//! is reported.
ghost use Rattle.std.specs.Prelude.{◌≡◌, ◌≤◌, ◌-◌, ◌^◌, IfOk, MatchOption, length, false, Ok, Err};
ghost use Rattle.pb_base.specs.declared.limits.TheConstants.{MAX_OBSERVERS};
ghost use Rattle.pb_reading.specs.Reading.{Gives, words_left};
ghost use Rattle.pb_accepted.specs.Observers.{observed_column};
ghost use Rattle.pb_parse.specs.declared.schedule.code.ScheduleCode.TheVariants as code;
ghost use Rattle.pb_parse.specs.ScheduleWords.{number_between, next_number, next_actor, next_row, observer_named, next_observer, next_change, next_run, next_job, once, launch_of, times_of, step_of, crash_of, next_data_cell, next_acknowledgment, next_cell, once_on, order_of_words, order_of};

use crate::event::{Event, Job};
use crate::schedule::code::ScheduleCode;
use pb_accepted::Observer;
use pb_base::{
    COLUMNS, Cell, Column, MAX_CHANGES, MAX_EVENTS, MAX_OBSERVERS, MAX_SEATS, ObserverNo, Row,
};
use pb_reading::{LineWords, first_word, numeral_upto};

/// What a line asks for: an event, so many times.
#[derive(Clone, Copy)]
pub struct Order {
    pub event: Event,
    pub times: usize,
}

// A number in this range.
fn number_between(least: u64, greatest: u64, word: &str) -> Result<u64, ScheduleCode>
    ensures value { Gives (λ _. false) (λ n. n) result (number_between least greatest word.now) }
    ensures low { IfOk result (λ n. least ≤ n) }
    ensures high { IfOk result (λ n. n ≤ greatest) }
{
    let number = numeral_upto(ScheduleCode::Form, ScheduleCode::Range, greatest, word)?;
    if number < least {
        return Err(ScheduleCode::Range);
    }
    Ok(number)
}

// An observer by its number, with the column that it observes, since the name of its acknowledgments has both.
#[derive(Clone, Copy)]
struct Named {
    number: ObserverNo,
    column: Column,
}

// The first observer of this name. A manifest has none of one name; other code may hand in several.
fn observer_named(observers: &[Observer], name: &str) -> Option<Named>
    requires { length observers.now ≤ MAX_OBSERVERS }
    ensures number { MatchOption result
        (observer_named observers.now name.now ≡ Err code.NoObserver)
        (λ o. observer_named observers.now name.now ≡ Ok o.number) }
    ensures column { MatchOption result (Unit {0})
        (λ o. o.column ≡ observed_column observers.now o.number) }
{
    for (place, observer) in observers.iter().enumerate() {
        if observer.name.as_str() == name {
            return match ObserverNo::new(place as u8) {
                Some(number) => Some(Named {
                    number,
                    column: observer.column,
                }),
                // A place is below 32, as many as a table may have, so that it is a number.
                None => unreachable!(),
            };
        }
    }
    None
}

// A number in this range.
#[tactic(auto, unfolding(crate::specs::ScheduleWords::next_number))]
fn next_number(words: &mut LineWords, least: u64, greatest: u64) -> Result<u64, ScheduleCode>
    ensures value { Gives (λ _. false) (λ x. (x, words_left words.new.rest)) result
        (next_number least greatest (words_left words.old.rest)) }
    ensures low { IfOk result (λ x. least ≤ x) }
    ensures high { IfOk result (λ x. x ≤ greatest) }
{
    let word = words.next_word(ScheduleCode::Form)?;
    number_between(least, greatest, word)
}

// Seat 0 is the main one, which asks what is no actor's, so that a text names actors from 1 on.
fn next_actor(words: &mut LineWords) -> Result<u32, ScheduleCode>
    ensures { Gives (λ _. false) (λ x. (x, words_left words.new.rest)) result
        (next_actor (words_left words.old.rest)) }
{
    let number = next_number(words, 1, u64::from(MAX_SEATS - 1))?;
    Ok(number as u32)
}

#[tactic(auto, unfolding(crate::specs::ScheduleWords::next_row))]
fn next_row(words: &mut LineWords) -> Result<Row, ScheduleCode>
    ensures { Gives (λ _. false) (λ x. (x, words_left words.new.rest)) result
        (next_row (words_left words.old.rest)) }
{
    let number = next_number(words, 0, u64::MAX)?;
    Ok(Row(number))
}

// The name of an observer. Any other word is refused as no observer's name, even one of digits.
#[tactic(auto, unfolding(crate::specs::ScheduleWords::next_observer))]
fn next_observer(words: &mut LineWords, observers: &[Observer]) -> Result<Named, ScheduleCode>
    requires { length observers.now ≤ MAX_OBSERVERS }
    ensures value { Gives (λ _. false) (λ x. (x.number, words_left words.new.rest)) result
        (next_observer observers.now (words_left words.old.rest)) }
    ensures column { IfOk result (λ x. x.column ≡ observed_column observers.now x.number) }
{
    let word = words.next_word(ScheduleCode::Form)?;
    match observer_named(observers, word) {
        Some(observer) => Ok(observer),
        None => Err(ScheduleCode::NoObserver),
    }
}

#[tactic(auto, unfolding(crate::specs::ScheduleWords::next_change))]
fn next_change(words: &mut LineWords) -> Result<Job, ScheduleCode>
    ensures { Gives (λ _. false) (λ x. (x, words_left words.new.rest)) result
        (next_change (words_left words.old.rest)) }
{
    let number = next_number(words, 1, MAX_CHANGES as u64)?;
    Ok(Job::Change(number as u32))
}

#[tactic(auto, unfolding(crate::specs::ScheduleWords::next_run))]
fn next_run(words: &mut LineWords, observers: &[Observer]) -> Result<Job, ScheduleCode>
    requires { length observers.now ≤ MAX_OBSERVERS }
    ensures { Gives (λ _. false) (λ x. (x, words_left words.new.rest)) result
        (next_run observers.now (words_left words.old.rest)) }
{
    let observer = next_observer(words, observers)?;
    let row = next_row(words)?;
    Ok(Job::Run(observer.number, row))
}

#[tactic(auto, unfolding(crate::specs::ScheduleWords::next_job))]
fn next_job(words: &mut LineWords, observers: &[Observer]) -> Result<Job, ScheduleCode>
    requires { length observers.now ≤ MAX_OBSERVERS }
    ensures { Gives (λ _. false) (λ x. (x, words_left words.new.rest)) result
        (next_job observers.now (words_left words.old.rest)) }
{
    let sort = words.next_word(ScheduleCode::Form)?;
    match sort {
        "change" => next_change(words),
        "run" => next_run(words, observers),
        _ => Err(ScheduleCode::Form),
    }
}

// What is asked for once. It has no word after it.
#[tactic(auto, unfolding(crate::specs::ScheduleWords::once))]
fn once(words: &LineWords, event: Event) -> Result<Order, ScheduleCode>
    ensures { Gives (λ _. false) (λ o. o) result (once event (words_left words.now.rest)) }
{
    words.no_word(ScheduleCode::Form)?;
    Ok(Order { event, times: 1 })
}

#[tactic(auto, unfolding(crate::specs::ScheduleWords::launch_of))]
fn launch_of(words: &mut LineWords, observers: &[Observer]) -> Result<Order, ScheduleCode>
    requires { length observers.now ≤ MAX_OBSERVERS }
    ensures { Gives (λ _. false) (λ o. o) result
        (launch_of observers.now (words_left words.old.rest)) }
{
    let actor = next_actor(words)?;
    let job = next_job(words, observers)?;
    once(words, Event::Launch(actor, job))
}

// How often: once if no word is left. So `next_word`, which refuses that, isn't called.
#[tactic(auto, unfolding(crate::specs::ScheduleWords::times_of))]
fn times_of(words: &mut LineWords) -> Result<usize, ScheduleCode>
    ensures { Gives (λ _. false) (λ n. n) result (times_of (words_left words.old.rest)) }
{
    let Some(line) = words.rest else {
        return Ok(1);
    };
    let (word, rest) = first_word(line);
    words.rest = rest;
    let times = number_between(1, MAX_EVENTS as u64, word)?;
    words.no_word(ScheduleCode::Form)?;
    Ok(times as usize)
}

#[tactic(auto, unfolding(crate::specs::ScheduleWords::step_of))]
fn step_of(words: &mut LineWords) -> Result<Order, ScheduleCode>
    ensures { Gives (λ _. false) (λ o. o) result (step_of (words_left words.old.rest)) }
{
    let actor = next_actor(words)?;
    let times = times_of(words)?;
    Ok(Order {
        event: Event::Step(actor),
        times,
    })
}

#[tactic(auto, unfolding(crate::specs::ScheduleWords::crash_of))]
fn crash_of(words: &mut LineWords) -> Result<Order, ScheduleCode>
    ensures { Gives (λ _. false) (λ o. o) result (crash_of (words_left words.old.rest)) }
{
    let actor = next_actor(words)?;
    once(words, Event::Crash(actor))
}

#[tactic(auto, unfolding(crate::specs::ScheduleWords::next_data_cell))]
fn next_data_cell(words: &mut LineWords) -> Result<Cell, ScheduleCode>
    ensures { Gives (λ _. false) (λ x. (x, words_left words.new.rest)) result
        (next_data_cell (words_left words.old.rest)) }
{
    let row = next_row(words)?;
    let number = next_number(words, 0, u64::from(COLUMNS - 1))?;
    match Column::new(number as u8) {
        Some(column) => Ok(Cell::Data(row, column)),
        // A number below `COLUMNS` was read, so that it is a column.
        None => unreachable!(),
    }
}

#[tactic(auto, unfolding(crate::specs::ScheduleWords::next_acknowledgment))]
fn next_acknowledgment(words: &mut LineWords, observers: &[Observer]) -> Result<Cell, ScheduleCode>
    requires { length observers.now ≤ MAX_OBSERVERS }
    ensures { Gives (λ _. false) (λ x. (x, words_left words.new.rest)) result
        (next_acknowledgment observers.now (words_left words.old.rest)) }
{
    let observer = next_observer(words, observers)?;
    let row = next_row(words)?;
    Ok(Cell::Ack(observer.number, row, observer.column))
}

// A data cell, or after `ack` an acknowledgment. The word is looked at before it is taken, since
// one that isn't `ack` is read again as the row.
fn next_cell(words: &mut LineWords, observers: &[Observer]) -> Result<Cell, ScheduleCode>
    requires { length observers.now ≤ MAX_OBSERVERS }
    ensures { Gives (λ _. false) (λ x. (x, words_left words.new.rest)) result
        (next_cell observers.now (words_left words.old.rest)) }
{
    let Some(line) = words.rest else {
        return Err(ScheduleCode::Form);
    };
    let (first, rest) = first_word(line);
    if first == "ack" {
        words.rest = rest;
        next_acknowledgment(words, observers)
    } else {
        next_data_cell(words)
    }
}

// What the verb and the words after it ask for.
#[tactic(auto, unfolding(crate::specs::ScheduleWords::order_of_words, crate::specs::ScheduleWords::once_on))]
fn order_of_words(words: &mut LineWords, observers: &[Observer]) -> Result<Order, ScheduleCode>
    requires { length observers.now ≤ MAX_OBSERVERS }
    ensures { Gives (λ _. false) (λ o. o) result
        (order_of_words observers.now (words_left words.old.rest)) }
{
    let verb = words.next_word(ScheduleCode::Form)?;
    match verb {
        "launch" => launch_of(words, observers),
        "step" => step_of(words),
        "crash" => crash_of(words),
        "settle" => {
            let cell = next_cell(words, observers)?;
            once(words, Event::Settle(cell))
        }
        "clear" => {
            let cell = next_cell(words, observers)?;
            once(words, Event::Clear(cell))
        }
        "sweep" => {
            let cell = next_data_cell(words)?;
            once(words, Event::Sweep(cell))
        }
        _ => Err(ScheduleCode::Form),
    }
}

/// What a line asks for: the whole line is one order, so that a word after its last one is a fault
/// too.
pub fn order_of(observers: &[Observer], line: &str) -> Result<Order, ScheduleCode>
    requires { length observers.now ≤ MAX_OBSERVERS }
    ensures { Gives (λ _. false) (λ o. o) result (order_of observers.now line.now) }
{
    order_of_words(&mut LineWords { rest: Some(line) }, observers)
}
