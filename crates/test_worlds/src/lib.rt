//! Lets events happen in a world, for the rows of checks/tables/worlds.py.
//!
//! With `SEATS LIMIT MANIFEST SCRIPT EVENTS..` the table of the world has so many seats, the
//! observers of a manifest, and room for so many entries in its journal; its actors launch the
//! changes of a script. Events stand in a list, with a semicolon between two, as a schedule has
//! them, except that observers are named by their numbers: so one can name actors, changes and
//! observers that aren't there.
//!
//! It runs the lists one after another, and prints the note of each event, or the event at fault and its code, and then the report.
//! With `--help` it names its words. It has no answer where there are no such words or no memory.
#![tactic(auto)]

ghost use Rattle.std.specs.Option.{IfSome};
ghost use Rattle.pb_core.specs.Calls.{AreSeats};

mod events;

use events::events_in;
use pb_accepted::Observer;
use pb_base::{Batch, MAX_ENTRIES, MAX_SEATS, Out, Ts};
use pb_core::{Seat, Shared};
use pb_memtablet::ListTablet;
use pb_parse::Event;
use pb_script::report;
use pb_story::add_answer;
use pb_world::{Note, World};
use std::alloc::{AllocError, Global};
use test_fixtures::{batches_of, observers_of, open_table};

const WORDS: &str = "SEATS LIMIT MANIFEST SCRIPT EVENTS..";

// Adds a line of what an event did.
fn add_note(text: &mut String, observers: &[Observer], note: &Note) -> Result<(), AllocError> {
    match note {
        Note::Launched => text.push_str("launched")?,
        Note::Called(answer) => add_answer(text, observers, answer)?,
        Note::Refused(code) => write!(text, "refused {code}")?,
        Note::Instruction => text.push_str("instruction")?,
        Note::Crashed => text.push_str("crashed")?,
        Note::Idle => text.push_str("idle")?,
    }
    text.push_str("\n")
}

// Runs a list of events, and adds the note of each, or the fault.
fn add_events(
    alloc: Global,
    text: &mut String,
    world: &mut World<ListTablet>,
    events: &[Event],
) -> Result<(), AllocError> {
    match world.run(alloc, events) {
        Ok(notes) => {
            for note in &notes {
                add_note(text, world.shared().observers(), note)?;
            }
            Ok(())
        }
        Err(fault) => writeln!(text, "event {} code {}", fault.event, fault.code()),
    }
}

// Runs the lists that texts name.
fn add_lists(
    alloc: Global,
    text: &mut String,
    world: &mut World<ListTablet>,
    lists: &[String],
) -> Option<()> {
    for list in lists {
        let events = events_in(alloc, list.as_str())?;
        add_events(alloc, text, world, &events).ok()?;
    }
    Some(())
}

// Runs the lists in a world over a table, and prints the report of what they left.
fn is_run(
    rt: &HostRuntime,
    shared: Shared<ListTablet>,
    seats: Vec<Seat>,
    batches: Vec<Batch>,
    lists: &[String],
) -> bool
    requires { AreSeats shared seats.items }
{
    let mut text = String::new(rt.alloc());
    match World::open(rt.alloc(), shared, seats, batches) {
        Ok(world) => {
            let mut world = world;
            let told = add_lists(rt.alloc(), &mut text, &mut world, lists);
            let (shared, _seats) = world.close();
            let mut out = Out::new(rt.stdout());
            let is_told = told.is_some()
                && print!(rt; "{text}").is_ok()
                && report(rt.alloc(), &mut out, &shared).is_ok();
            shared.close();
            is_told
        }
        Err((shared, _seats, _batches, _)) => {
            shared.close();
            false
        }
    }
}

// The table of a manifest's observers, with the seats and the room for entries that words name.
fn opened_by(
    alloc: Global,
    seats: &str,
    limit: &str,
    manifest: &str,
) -> Option<(Shared<ListTablet>, Vec<Seat>)>
    ensures { IfSome result (λ s. AreSeats s.0 s.1.items) }
{
    let seats = seats.parse::<u32>().ok()?;
    let limit = limit.parse::<usize>().ok()?;
    if seats < 1 || seats > MAX_SEATS || limit > MAX_ENTRIES {
        return None;
    }
    let observers = observers_of(alloc, manifest).ok()?;
    open_table(alloc, observers, seats, Ts(0), limit).ok()
}

// Whether what the words ask for was done.
fn is_done(rt: &HostRuntime, words: &[String]) -> Option<bool> {
    let [_, seats, limit, manifest, script, lists @ ..] = words else {
        return None;
    };
    let batches = batches_of(rt.alloc(), script.as_str()).ok()?;
    let (shared, seats) = opened_by(
        rt.alloc(),
        seats.as_str(),
        limit.as_str(),
        manifest.as_str(),
    )?;
    Some(is_run(rt, shared, seats, batches, lists))
}

/// Whether what these words ask for, the crate's own first, was done and printed.
pub fn are_words_done(rt: &HostRuntime, words: &[String]) -> Option<bool> {
    if words.get(1)?.as_str() == "--help" {
        return Some(println!(rt; "{WORDS}").is_ok());
    }
    is_done(rt, words)
}
