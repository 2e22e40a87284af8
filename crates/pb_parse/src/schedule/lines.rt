//! A schedule's lines, each added to the events of those before it.
ghost use Rattle.std.specs.Prelude.{◌≡◌, ◌≤◌, length, vec_len, IfOk};
ghost use Rattle.pb_base.specs.declared.limits.TheConstants.{MAX_EVENTS, MAX_OBSERVERS};
ghost use Rattle.pb_reading.specs.Faults.{ReadsLine, ReadsText};
ghost use Rattle.pb_parse.specs.Schedules.{with_order, with_event_line, schedule_of};

use crate::event::Event;
use crate::schedule::code::ScheduleCode;
use crate::schedule::words::{Order, order_of};
use pb_accepted::Observer;
use pb_base::{MAX_EVENTS, MAX_OBSERVERS};
use pb_reading::{LineFault, TextFault as ScriptFault, first_line, is_skipped};
use std::alloc::Global;

// Adds what an order asks for, by one growth however often it asks.
fn append(events: &mut Vec<Event>, order: Order) -> Result<(), LineFault<ScheduleCode>>
    requires { vec_len events.old ≤ MAX_EVENTS }
    ensures read { ReadsLine (λ _. events.new.items) result
        (with_order events.old.items order) }
    ensures most { vec_len events.new ≤ MAX_EVENTS }
{
    // What is left is compared, since a sum with any `times` may go beyond its type.
    if order.times > MAX_EVENTS - events.len() {
        return Err(LineFault::Code(ScheduleCode::TooMany));
    }
    events.resize(events.len() + order.times, order.event)?;
    Ok(())
}

// Adds what one line asks for. That the events are too many comes last, since only a line that is read adds any.
#[tactic(auto, unfolding(crate::specs::Schedules::with_event_line))]
fn add_line(
    observers: &[Observer],
    events: &mut Vec<Event>,
    line: &str,
) -> Result<(), LineFault<ScheduleCode>>
    requires few { length observers.now ≤ MAX_OBSERVERS }
    requires most { vec_len events.old ≤ MAX_EVENTS }
    ensures read { ReadsLine (λ _. events.new.items) result
        (with_event_line observers.now events.old.items line.now) }
    ensures most { vec_len events.new ≤ MAX_EVENTS }
{
    if is_skipped(line) {
        return Ok(());
    }
    // A match and no `?`, since the toolchain doesn't find the type `Job` in an order that `?` hands on.
    match order_of(observers, line) {
        Ok(order) => append(events, order),
        Err(code) => Err(LineFault::Code(code)),
    }
}

/// The events of a schedule, one per line, or as many as a line with `step` states. There are no
/// more observers than a table may have, so that each is named by its number; of several of one
/// name the first is meant. For another text it returns the first line at fault, from 1, with its
/// code: 90 not of the form, 91 a number out of range, 92 over 1,000,000 events, 93 no observer of
/// that name. If memory ran out it is line 0 with code 1.
pub fn parse_schedule(
    alloc: Global,
    text: &str,
    observers: &[Observer],
) -> Result<Vec<Event>, ScriptFault>
    requires { length observers.now ≤ MAX_OBSERVERS }
    ensures { ReadsText (λ v. v.items) result (schedule_of observers.now text.now) }
{
    let mut events = Vec::new(alloc);
    let mut index = 0;
    let mut left = Some(text);
    while let Some(lines) = left {
        let (line, after) = first_line(lines);
        match add_line(observers, &mut events, line) {
            Ok(()) => {}
            Err(LineFault::NoMemory(e)) => return Err(ScriptFault::NoMemory(e)),
            Err(LineFault::Code(code)) => return Err(ScriptFault::at(index, code.code())),
        }
        index += 1;
        left = after;
    }
    Ok(events)
}
