//! Events by their words.
use pb_base::{Cell, Column, ObserverNo, Row};
use pb_parse::{Event, Job};
use std::alloc::Global;

fn actor_in(word: &str) -> Option<u32> {
    word.parse::<u32>().ok()
}

fn column_in(word: &str) -> Option<Column> {
    Column::new(word.parse::<u8>().ok()?)
}

fn row_in(word: &str) -> Option<Row> {
    Some(Row(word.parse::<u64>().ok()?))
}

// Adds the event that these words name. No event is handed on by `?`, or to a function of its own, since the toolchain doesn't find
// the type `Job` there.
fn add_event(events: &mut Vec<Event>, words: &[&str]) -> Option<()> {
    match words {
        ["launch", actor, "change", number] => {
            let (actor, number) = (actor_in(actor)?, number.parse::<u32>().ok()?);
            events.push(Event::Launch(actor, Job::Change(number))).ok()
        }
        ["launch", actor, "run", observer, row] => {
            let (actor, row) = (actor_in(actor)?, row_in(row)?);
            let observer = ObserverNo::new(observer.parse::<u8>().ok()?)?;
            events
                .push(Event::Launch(actor, Job::Run(observer, row)))
                .ok()
        }
        ["step", actor] => events.push(Event::Step(actor_in(actor)?)).ok(),
        ["crash", actor] => events.push(Event::Crash(actor_in(actor)?)).ok(),
        ["clear", row, column] => {
            let (row, column) = (row_in(row)?, column_in(column)?);
            events.push(Event::Clear(Cell::Data(row, column))).ok()
        }
        _ => None,
    }
}

/// The events of a list.
pub fn events_in(alloc: Global, list: &str) -> Option<Vec<Event>> {
    let mut events = Vec::new(alloc);
    for text in list.split(';') {
        let words: Vec<&str> = text.split_whitespace().collect(alloc).ok()?;
        if !words.is_empty() {
            add_event(&mut events, &words)?;
        }
    }
    Some(events)
}
