//! What is printed on workers.
use crate::clearing::is_clearing_told;
use pb_base::{Batch, Content, Out, Refusal};
use pb_core::{Seat, Shared};
use pb_ending::finish;
use pb_history::{KeptCall, KeptEntry, Received};
use pb_script::report;
use pb_steps::{Answer, Declared, Step, Work};
use pb_store::Tablet;
use pb_threads::Worked;
use std::io;

/// What is printed in addition to the refusals, the seats, the changes that are left and the
/// report.
#[derive(Clone, Copy)]
pub enum How {
    /// Nothing.
    Told,
    /// Each entry of the journal.
    Listed,
    /// What the main seat's calls are answered that settle and clear what is left.
    Cleared,
}

impl How {
    /// What this word asks for.
    pub fn of(word: &str) -> Option<How> {
        match word {
            "told" => Some(How::Told),
            "listed" => Some(How::Listed),
            "cleared" => Some(How::Cleared),
            _ => None,
        }
    }
}

/// Prints the report of a table, and returns whether it could.
pub fn is_reported<T: Tablet>(rt: &HostRuntime, shared: &Shared<T>) -> bool {
    let mut out = Out::new(rt.stdout());
    report(rt.alloc(), &mut out, shared).is_ok()
}

// Prints the number of each refusal, 0 where there is none.
fn tell_refusals(rt: &HostRuntime, refusals: &[Option<Refusal>]) -> io::Result<()> {
    print!(rt; "refusals")?;
    for refusal in refusals {
        let code = match refusal {
            Some(refusal) => refusal.code(),
            None => 0,
        };
        print!(rt; " {code}")?;
    }
    println!(rt; "")
}

// Prints each seat's number, and how much it received.
fn tell_seats(rt: &HostRuntime, seats: &[Seat]) -> io::Result<()> {
    for seat in seats {
        println!(rt; "seat {} received {}", seat.number(), seat.received().len())?;
    }
    Ok(())
}

// Prints the numbers of the changes that are left.
fn tell_unfinished(rt: &HostRuntime, unfinished: &[usize]) -> io::Result<()> {
    print!(rt; "unfinished")?;
    for number in unfinished {
        print!(rt; " {number}")?;
    }
    println!(rt; "")
}

// Whether a seat received what the journal's entry records.
fn is_told_so(received: &KeptCall, entry: &KeptEntry) -> bool {
    received.is_same(entry.call())
}

// Whether a seat received the journal's entries of it, in their order, and nothing else.
fn has_its_entries(journal: &[KeptEntry], seat: &Seat) -> bool {
    let received = seat.received();
    let mut next = 0;
    for entry in journal {
        if entry.seat() == seat.number() {
            if next >= received.len() || !is_told_so(&received[next], entry) {
                return false;
            }
            next += 1;
        }
    }
    next == received.len()
}

// What each seat received beside the journal's entries of it.
fn are_entries_theirs(journal: &[KeptEntry], seats: &[Seat]) -> &'static str {
    if seats.iter().all(|seat| has_its_entries(journal, seat)) {
        "theirs"
    } else {
        "others"
    }
}

// The first two bytes of the one value of a change, as a number; 0 where it has more cells or deletes one.
fn number_in(batch: &Batch) -> u64 {
    if batch.len() != 1 {
        return 0;
    }
    match batch.at(0) {
        (_, Content::Value(value)) => u64::from(value[0]) * 256 + u64::from(value[1]),
        _ => 0,
    }
}

// The word of what is declared, and the number of a change.
fn declared_in(what: &Declared) -> (&'static str, u64) {
    match what {
        Declared::Script(batch) => ("declare", number_in(batch)),
        Declared::Run(_, _) => ("declare-run", 0),
    }
}

// The word of a step, its start, and the number of a change that it declares.
fn words_of(step: &Step) -> (&'static str, u64, u64) {
    match step {
        Step::Begin(Work::Script) => ("begin", 0, 0),
        Step::Begin(Work::Run(_, _)) => ("begin-run", 0, 0),
        Step::Declare(start, what) => {
            let (word, number) = declared_in(what.get());
            (word, start.0, number)
        }
        Step::Prewrite(start, _) => ("prewrite", start.0, 0),
        Step::Stamp(start) => ("stamp", start.0, 0),
        Step::CommitPrimary(start) => ("commit", start.0, 0),
        Step::NextMark(None) => ("first-mark", 0, 0),
        _ => ("other", 0, 0),
    }
}

// The word of an answer, and the timestamp that it gives out.
fn word_of(answer: Answer) -> (&'static str, u64) {
    match answer {
        Answer::At(ts) => ("at", ts.0),
        Answer::Conflict => ("conflict", 0),
        Answer::Committed => ("committed", 0),
        Answer::NoMark => ("no-mark", 0),
        _ => ("other", 0),
    }
}

// Prints an entry: its seat, its step and its answer.
fn tell_entry(rt: &HostRuntime, seat: u32, call: &Received) -> io::Result<()> {
    let (step, start, number) = words_of(&call.step);
    let (answer, ts) = word_of(call.answer);
    println!(rt; "entry {seat} {step} {start} {number} {answer} {ts}")
}

// Whether each entry was printed.
fn is_journal_told(rt: &HostRuntime, journal: &[KeptEntry]) -> bool {
    for entry in journal {
        let Ok(call) = entry.call().get() else {
            return false;
        };
        if tell_entry(rt, entry.seat(), &call).is_err() {
            return false;
        }
    }
    true
}

// Prints what workers left of their table.
fn tell_left<T: Tablet>(
    rt: &HostRuntime,
    shared: &Shared<T>,
    seats: &[Seat],
    refusals: &[Option<Refusal>],
    unfinished: &[usize],
) -> io::Result<()> {
    tell_refusals(rt, refusals)?;
    tell_seats(rt, seats)?;
    tell_unfinished(rt, unfinished)?;
    let journal = shared.journal();
    println!(rt;
        "entries {} {}",
        journal.len(),
        are_entries_theirs(journal, seats)
    )
}

/// Whether it was printed if `finish` accepts table and seats, and, if it does, the report.
pub fn is_end_told<T: Tablet>(rt: &HostRuntime, shared: Shared<T>, seats: Vec<Seat>) -> bool {
    match finish(shared, seats) {
        Ok(ended) => {
            let is_told = println!(rt; "accepted").is_ok() && is_reported(rt, ended.shared());
            ended.close();
            is_told
        }
        Err((shared, _seats)) => {
            shared.close();
            println!(rt; "refused").is_ok()
        }
    }
}

/// Whether all was printed that is asked for of what workers left.
pub fn is_told<T: Tablet>(rt: &HostRuntime, worked: Worked<T>, how: How) -> bool {
    let Worked {
        mut shared,
        mut seats,
        refusals,
        unfinished,
    } = worked;
    let is_left_told = tell_left(rt, &shared, &seats, &refusals, &unfinished).is_ok();
    let is_more_told = match how {
        How::Told => true,
        How::Listed => is_journal_told(rt, shared.journal()),
        How::Cleared => {
            is_reported(rt, &shared) && is_clearing_told(rt, &mut shared, &mut seats) == Some(true)
        }
    };
    is_end_told(rt, shared, seats) && is_left_told && is_more_told
}
