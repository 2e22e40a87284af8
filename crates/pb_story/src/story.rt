//! The story of a list of events, as it is written while they happen. One event at a time is let happen by the call
//! that a replay makes, so that there is no second way for events to happen.
ghost use Rattle.std.specs.Prelude.{◌≡◌, false, IfOk, IfErr};
ghost use Rattle.pb_world.specs.Events.{Happens};
ghost use Rattle.pb_base.specs.Taking.{taking};
ghost use Rattle.pb_story.specs.Stories.{IsEventFault, EventEnds, LinesEnd, StoryEnds};

use crate::fault::StoryFault;
use crate::lines::{end_line, is_shown, open_line};
use pb_base::Sink;
use pb_parse::Event;
use pb_script::{ReportFault, report};
use pb_store::Tablet;
use pb_texts::Excerpt;
use pb_world::{EventFault, Note, World, WorldFault};
use std::alloc::Global;
use std::slice;

// Lets one event happen, that of this number.
fn happen<T: Tablet>(
    alloc: Global,
    world: &mut World<T>,
    number: usize,
    event: &Event,
) -> Result<Note, StoryFault>
    ensures ok { IfOk result (λ n. Happens world.old event.now n world.new) }
    ensures err { IfErr result (IsEventFault world.old number event.now world.new) }
{
    match world.run(alloc, slice::from_ref(event)) {
        Ok(notes) => Ok(notes[0]),
        Err(fault) => match fault.fault {
            EventFault::NoMemory(refused) => Err(StoryFault::NoMemory(refused)),
            fault => Err(StoryFault::Event(WorldFault {
                event: number,
                fault,
            })),
        },
    }
}

// Lets one event happen, that of this number, and writes its line, if the excerpt has it.
fn tell_event<T: Tablet, S: Sink>(
    alloc: Global,
    world: &mut World<T>,
    number: usize,
    event: &Event,
    excerpt: &Excerpt,
    sink: &mut S,
) -> Result<(), StoryFault>
    requires unfailed { S.failed sink.old ≡ false }
    ensures { EventEnds excerpt.now world.old number event.now world.new
        (taking S.taken S.failed sink.old sink.new) result }
{
    // Before the event, since what it does is known from the world before it.
    let mut line = open_line(alloc, world, number, event)?;
    let note = happen(alloc, world, number, event)?;
    if !is_shown(excerpt, number, &note) {
        return Ok(());
    }
    end_line(&mut line, world.shared().observers(), &note)?;
    match sink.write_all(line.as_bytes()) {
        Ok(()) => Ok(()),
        Err(_) => Err(StoryFault::Output),
    }
}

// Lets the events happen in order, and writes the line of each of the excerpt as soon as it has happened.
fn tell_events<T: Tablet, S: Sink>(
    alloc: Global,
    world: &mut World<T>,
    events: &[Event],
    excerpt: &Excerpt,
    sink: &mut S,
) -> Result<(), StoryFault>
    requires unfailed { S.failed sink.old ≡ false }
    ensures { LinesEnd excerpt.now world.old events.now world.new
        (taking S.taken S.failed sink.old sink.new) result }
{
    for number in 0..events.len() {
        tell_event(alloc, world, number, &events[number], excerpt, sink)?;
    }
    Ok(())
}

/// Lets the events happen in order, as [`World::run`] does, writes the line of each of the excerpt, with its note, as soon as it
/// has happened, and then the report of what they left.
///
/// Where an event is at fault, the lines of those before it were written, and no report follows. Where memory is refused,
/// whole lines were written, and at most one event more has happened than they show.
pub fn tell_story<T: Tablet, S: Sink>(
    alloc: Global,
    world: &mut World<T>,
    events: &[Event],
    excerpt: &Excerpt,
    sink: &mut S,
) -> Result<(), StoryFault>
    requires unfailed { S.failed sink.old ≡ false }
    ensures { StoryEnds excerpt.now world.old events.now world.new
        (taking S.taken S.failed sink.old sink.new) result }
{
    tell_events(alloc, world, events, excerpt, sink)?;
    match report(alloc, sink, world.shared()) {
        Ok(()) => Ok(()),
        Err(ReportFault::Output) => Err(StoryFault::Output),
        Err(ReportFault::NoMemory(refused)) => Err(StoryFault::NoMemory(refused)),
    }
}
