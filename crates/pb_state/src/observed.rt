//! Whether a declaration is one of its transaction, and what it writes. No machine is run: what a declared run has in
//! it is compared with what its transaction read.
ghost use Rattle.std.specs.Prelude.{◌≡◌, ◌↔◌, ◌&&◌, ◌∷◌, nat_lt, IsTrue, Some, IfSome, IfOk, IfErr, OnOk, is_some, true, false, slice_get};
ghost use Rattle.std.specs.Option.{option_copied, option_map};
ghost use Rattle.pb_base.specs.declared.refusal.Reason.TheVariants.{NotItsDeclaration};
ghost use Rattle.pb_helpers.specs.Bytes.{is_second};
ghost use Rattle.pb_helpers.specs.OldRecord as versions;
ghost use Rattle.pb_helpers.specs.Replies.{ask_of, reply_of};
ghost use Rattle.pb_accepted.specs.Observers.{acknowledgment_at};
ghost use Rattle.pb_finished.specs.Talk.{talk_of};
ghost use Rattle.pb_steps.specs.Reads.{value_in};
ghost use Rattle.pb_steps.specs.Declarations.{old_at, is_at, is_read_of, with_old, seen_by, seen_in, asked_in, is_replied, are_replies, is_made_of, is_run_by, is_run_of, is_its};
ghost use Rattle.pb_state.specs.Cells.{acknowledgment_by};

use pb_accepted::{Accepted, Observer};
use pb_base::{Cell, ObserverNo, Reason, Revision, Row, Ts};
use pb_finished::Finished;
use pb_helpers::{Ask, Record, Reply, Version};
use pb_steps::{
    Answer, Declared, RecordedRead, Seen, Work, acknowledged_in, old_at, reply_in, version_in,
};
use std::sync::Arc;

// Whether two reads named one timestamp, or none.
fn is_at(one: Option<Ts>, other: Option<Ts>) -> bool
    ensures { result ≡ is_at one other }
{
    match one {
        None => match other {
            None => true,
            Some(_) => false,
        },
        Some(one) => match other {
            None => false,
            Some(other) => one.0 == other.0,
        },
    }
}

// Whether a read is of this cell, and named this timestamp, or none.
fn is_read_of(read: &RecordedRead, cell: &Cell, at: Option<Ts>) -> bool
    ensures { result ≡ is_read_of read.now cell.now at }
{
    if read.cell != *cell {
        return false;
    }
    is_at(read.at, at)
}

// What was seen, with what the cell held at a timestamp if that was read at; and the reads after that.
fn with_old<'r>(
    at: Option<Ts>,
    cell: &Cell,
    seen: Seen,
    reads: &'r [RecordedRead],
) -> Option<(Seen, &'r [RecordedRead])>
    ensures seen { option_map (λ s. s.0) result ≡ with_old at cell.now seen reads.now }
    ensures acknowledged { IfSome result (λ s. s.0.acknowledged ≡ seen.acknowledged) }
    ensures asked { IfSome result (λ s. (r q : RecordedRead)
        → asked_in at (r ∷ q ∷ reads.now) ≡ s.1.now) }
{
    match at {
        None => Some((seen, reads)),
        Some(at) => match reads {
            [] => None,
            [read, asked @ ..] => {
                if is_read_of(read, cell, Some(at)) {
                    let old = reply_in(read.answer).value();
                    Some((Seen { old, ..seen }, asked))
                } else {
                    None
                }
            }
        },
    }
}

// What reads show, if the first found its cell; and the reads of the asks.
fn seen_by<'r>(
    second: bool,
    cell: &Cell,
    found: Option<Revision>,
    acknowledged: Ts,
    reads: &'r [RecordedRead],
) -> Option<(Seen, &'r [RecordedRead])>
    ensures seen { option_map (λ s. s.0) result
        ≡ seen_by second cell.now found acknowledged reads.now }
    ensures asked { IfSome result (λ s. (r q : RecordedRead)
        → asked_in (old_at second s.0.acknowledged) (r ∷ q ∷ reads.now) ≡ s.1.now) }
{
    match found {
        None => None,
        Some(version) => {
            let seen = Seen {
                version,
                acknowledged,
                old: None,
            };
            with_old(old_at(second, acknowledged), cell, seen, reads)
        }
    }
}

// What the reads of a run show: the first two are its cell, found, and its acknowledgment. With it come the reads of the
// asks, which stand after them, so that nothing is looked for twice.
fn seen_in<'r>(
    cell: &Cell,
    acknowledgment: &Cell,
    second: bool,
    reads: &'r [RecordedRead],
) -> Option<(Seen, &'r [RecordedRead])>
    ensures seen { option_map (λ s. s.0) result
        ≡ seen_in cell.now acknowledgment.now second reads.now }
    ensures asked { IfSome result (λ s. s.1.now
        ≡ asked_in (old_at second s.0.acknowledged) reads.now) }
{
    let [found, acknowledged, rest @ ..] = reads else {
        return None;
    };
    if !is_read_of(found, cell, None) {
        return None;
    }
    if !is_read_of(acknowledged, acknowledgment, None) {
        return None;
    }
    let version = version_in(found.answer);
    seen_by(
        second,
        cell,
        version,
        acknowledged_in(acknowledged.answer),
        rest,
    )
}

// Whether the reply is the one that this answer of a read gives.
fn is_told(reply: Reply, answer: Answer) -> bool
    ensures { IsTrue result ↔ (reply_of reply ≡ value_in answer) }
{
    match (reply, reply_in(answer)) {
        (Reply::Found(told), Reply::Found(value)) => told == value,
        (Reply::Absent, Reply::Absent) => true,
        _ => false,
    }
}

// Whether a read is of the cell that was asked for, and the reply what it found.
fn is_replied(read: &RecordedRead, said: &(Ask, Reply)) -> bool
    ensures { result ≡ is_replied read.now (ask_of said.now.0, reply_of said.now.1) }
{
    let cell = Cell::Data(said.0.row, said.0.column);
    if !is_read_of(read, &cell, None) {
        return false;
    }
    is_told(said.1, read.answer)
}

// Whether the reads are those of the asks, each with its reply, in order.
fn are_replies(reads: &[RecordedRead], talk: &[(Ask, Reply)]) -> bool
    ensures { result ≡ are_replies reads.now (talk_of talk.now) }
{
    match reads {
        [] => talk.is_empty(),
        [read, reads @ ..] => match talk {
            [] => false,
            [said, talk @ ..] => is_replied(read, said) && are_replies(reads, talk),
        },
    }
}

// Whether a run is this program's on this record, from this start. Programs are compared as wholes, packed, since shared
// pointers have no equality.
fn is_made_of(finished: &Finished, program: &Accepted, change: &Record, start: Ts) -> bool
    ensures { result ≡ is_made_of program.now change.now start.0 finished.now }
{
    if !finished.is_of(program) {
        return false;
    }
    if !finished.record().is_same(change) {
        return false;
    }
    finished.start() == start
}

// The version that an observer's program is accepted for.
fn version_of(program: &Arc<Accepted>) -> Version
    ensures { is_second result ≡ versions.tells_old program.now.value }
{
    program.version()
}

// Whether a run of this start is of the program on the record, of this version, of what was seen, and newer than what
// was acknowledged.
fn is_newer_run(
    program: &Arc<Accepted>,
    version: Version,
    cell: &Cell,
    start: Ts,
    finished: &Finished,
    seen: &Seen,
) -> bool
    ensures { result ≡
        (nat_lt seen.now.acknowledged.0 seen.now.version.commit.0 && is_made_of program.now.value
        (versions.record_by (is_second version) cell.now seen.now.version seen.now.acknowledged.0
        seen.now.old) start.0 finished.now) }
{
    if seen.acknowledged >= seen.version.commit {
        return false;
    }
    let record = Record::of_version(version, *cell, &seen.version, seen.acknowledged, seen.old);
    is_made_of(finished, program, &record, start)
}

// Whether it is such a run, and each reply is what its cell was read with.
fn is_run(
    program: &Arc<Accepted>,
    version: Version,
    cell: &Cell,
    start: Ts,
    finished: &Finished,
    seen: &Seen,
    asked: &[RecordedRead],
) -> bool
    ensures { result ≡
        (nat_lt seen.now.acknowledged.0 seen.now.version.commit.0 && is_made_of program.now.value
        (versions.record_by (is_second version) cell.now seen.now.version seen.now.acknowledged.0
        seen.now.old) start.0 finished.now && are_replies asked.now finished.now.talk) }
{
    is_newer_run(program, version, cell, start, finished, seen)
        && are_replies(asked, finished.talk())
}

// Whether a run of this start is the observer's on what its transaction read.
fn is_run_by(
    observer: &Observer,
    cell: &Cell,
    acknowledgment: &Cell,
    start: Ts,
    reads: &[RecordedRead],
    finished: &Finished,
) -> bool
    ensures { result ≡ is_run_by
        (Some observer.now) cell.now acknowledgment.now start.0 reads.now finished.now }
{
    let version = version_of(&observer.program);
    let second = version.tells_old();
    match seen_in(cell, acknowledgment, second, reads) {
        None => false,
        Some((seen, asked)) => is_run(
            &observer.program,
            version,
            cell,
            start,
            finished,
            &seen,
            asked,
        ),
    }
}

// The observer of this number.
fn observer_at(observers: &[Observer], number: ObserverNo) -> Option<&Observer>
    ensures { option_copied result ≡ slice_get observers.now number }
{
    observers.get(number.number() as usize)
}

// The acknowledgment in this row of the observer of this number, if there is one and the run is its own there.
fn acknowledgment_of(
    observers: &[Observer],
    number: ObserverNo,
    row: Row,
    start: Ts,
    reads: &[RecordedRead],
    finished: &Finished,
) -> Option<Cell>
    ensures some { IfSome result (λ a. Some a
        ≡ acknowledgment_at (slice_get observers.now number) number row) }
    ensures of_run { is_some result ≡ is_run_of
        observers.now number row start.0 reads.now finished.now }
{
    let Some(observer) = observer_at(observers, number) else {
        return None;
    };
    let cell = Cell::Data(row, observer.column);
    let acknowledgment = Cell::Ack(number, row, observer.column);
    if is_run_by(observer, &cell, &acknowledgment, start, reads, finished) {
        Some(acknowledgment)
    } else {
        None
    }
}

/// The acknowledgment that a transaction with this work, start and reads also writes, or none of a script, if this is a
/// declaration of it. Its observer is looked up once for both.
pub(crate) fn acknowledgment_if_its(
    observers: &[Observer],
    work: Work,
    start: Ts,
    reads: &[RecordedRead],
    what: &Declared,
) -> Result<Option<Cell>, Reason>
    ensures its { OnOk result (is_its observers.now work start.0 reads.now what.now ≡ true) }
    ensures acknowledgment { IfOk result (λ a. a ≡ acknowledgment_by observers.now work) }
    ensures refused { IfErr result (λ r. (r ≡ NotItsDeclaration)
        × (is_its observers.now work start.0 reads.now what.now ≡ false)) }
{
    match work {
        Work::Script => match what {
            Declared::Script(_) => Ok(None),
            Declared::Run(_, _) => Err(Reason::NotItsDeclaration),
        },
        Work::Run(number, row) => match what {
            Declared::Script(_) => Err(Reason::NotItsDeclaration),
            Declared::Run(by, run) => {
                if *by != number {
                    return Err(Reason::NotItsDeclaration);
                }
                match acknowledgment_of(observers, number, row, start, reads, run.get()) {
                    Some(acknowledgment) => Ok(Some(acknowledgment)),
                    None => Err(Reason::NotItsDeclaration),
                }
            }
        },
    }
}
