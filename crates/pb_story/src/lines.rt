//! The line of an event: its number, its seat, what it does and its note. It is made in two parts, since what an event
//! does is known from the world before it, and its note from what came of it.
ghost use Rattle.std.specs.Prelude.{◌≡◌, ◌++◌, OnOk, IfOk, string_bytes, codes};
ghost use Rattle.pb_story.specs.Lines.{GrowsBy, seat_of, job_text, IsTurn, IsDeed, note_text, IsOpenLine, is_idle, is_shown};

use crate::answers::add_answer;
use crate::cells::add_name;
use crate::steps::{add_on_cell, add_step};
use pb_accepted::Observer;
use pb_parse::{Event, Job};
use pb_store::Tablet;
use pb_texts::Excerpt;
use pb_world::{ActorJob, Note, World};
use std::alloc::{AllocError, Global};

// What no actor does, the main seat does.
fn seat_of(event: &Event) -> u32
    ensures { result ≡ seat_of event.now }
{
    match event {
        Event::Launch(number, _) => *number,
        Event::Step(number) => *number,
        Event::Crash(number) => *number,
        _ => 0,
    }
}

// Adds what an actor is launched for.
fn add_job(text: &mut String, observers: &[Observer], job: &Job) -> Result<(), AllocError>
    ensures { OnOk result (string_bytes text.new
        ≡ string_bytes text.old ++ job_text observers.now job.now) }
{
    match job {
        Job::Change(number) => {
            let number = *number;
            write!(text, "change {number}")
        }
        Job::Run(observer, row) => {
            let row = row.0;
            text.push_str("run ")?;
            add_name(text, observers, *observer)?;
            write!(text, " {row}")
        }
    }
}

// Adds what an actor with this job does next.
fn add_turn(text: &mut String, observers: &[Observer], job: &ActorJob) -> Result<(), AllocError>
    ensures { OnOk result
        (GrowsBy (IsTurn observers.now (Some job.now)) (string_bytes text.old)
        (string_bytes text.new)) }
{
    // Asked first, since a job whose machine is on its way has no step of the table next.
    if let Some(slot) = job.slot() {
        return write!(text, "instruction {slot}");
    }
    match job.next() {
        Some(step) => add_step(text, observers, step),
        None => text.push_str("step"),
    }
}

// Adds what an event does.
fn add_deed<T: Tablet>(text: &mut String, world: &World<T>, event: &Event) -> Result<(), AllocError>
    ensures { OnOk result (GrowsBy (IsDeed world.now event.now) (string_bytes text.old)
        (string_bytes text.new)) }
{
    let observers = world.shared().observers();
    match event {
        Event::Launch(_, job) => {
            text.push_str("launch ")?;
            add_job(text, observers, job)
        }
        Event::Step(number) => match world.job(*number) {
            Some(job) => add_turn(text, observers, job),
            None => text.push_str("step"),
        },
        Event::Crash(_) => text.push_str("crash"),
        Event::Settle(cell) => add_on_cell(text, observers, "settle", cell),
        Event::Clear(cell) => add_on_cell(text, observers, "clear", cell),
        Event::Sweep(cell) => add_on_cell(text, observers, "sweep", cell),
    }
}

/// The line of an event that is to happen, up to its note. It is made before the event, since a step that has been
/// taken is no longer its job's next one.
pub fn open_line<T: Tablet>(
    alloc: Global,
    world: &World<T>,
    number: usize,
    event: &Event,
) -> Result<String, AllocError>
    ensures { IfOk result (λ s. IsOpenLine world.now number event.now (string_bytes s)) }
{
    let seat = seat_of(event);
    let mut text = format!(in alloc; "{number} {seat} ")?;
    add_deed(&mut text, world, event)?;
    Ok(text)
}

// Adds what an event came to.
fn add_note(text: &mut String, observers: &[Observer], note: &Note) -> Result<(), AllocError>
    ensures { OnOk result (string_bytes text.new
        ≡ string_bytes text.old ++ note_text observers.now note.now) }
{
    match note {
        Note::Launched => text.push_str(" -> launched"),
        Note::Called(answer) => {
            text.push_str(" -> ")?;
            add_answer(text, observers, answer)
        }
        Note::Refused(code) => {
            let code = *code;
            write!(text, " -> refused {code}")
        }
        Note::Instruction => text.push_str(""),
        Note::Crashed => text.push_str(" -> crashed"),
        Note::Idle => text.push_str(" -> idle"),
    }
}

/// Ends the line of an event by its note.
pub fn end_line(text: &mut String, observers: &[Observer], note: &Note) -> Result<(), AllocError>
    ensures { OnOk result
        (string_bytes text.new ≡ string_bytes text.old ++
        (note_text observers.now note.now ++ codes "\n")) }
{
    add_note(text, observers, note)?;
    text.push_str("\n")
}

fn is_idle(note: &Note) -> bool
    ensures { result ≡ is_idle note.now }
{
    matches!(note, Note::Idle)
}

/// Whether an excerpt has the line of the event of this number, to which this was noted.
pub fn is_shown(excerpt: &Excerpt, number: usize, note: &Note) -> bool
    ensures { result ≡ is_shown excerpt.now number note.now }
{
    let number = number as u64;
    excerpt.first <= number && number <= excerpt.last && (excerpt.idle || !is_idle(note))
}
