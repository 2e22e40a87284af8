//! A program's run, as C gets it: up to its next ask, or to its end. Nothing is kept between two calls, so that each begins
//! at the program's entry, with all replies that it has had so far.
ghost use Rattle.std.specs.Prelude.{◌≡◌, ◌≤◌, [], IfOk, length, map};
ghost use Rattle.pb_base.specs.declared.limits.TheConstants.{MAX_CELLS};
ghost use Rattle.pb_helpers.specs.Bytes.{size_of};
ghost use Rattle.pb_helpers.specs.Replies.{reply_of};
ghost use Rattle.pb_registry.specs.Manifests.{profile_of};
ghost use Rattle.pb_vm.specs.Moves.{SameGiven};
ghost use Rattle.pb_vm.specs.declared.moved.MachinePhase.TheVariants.{Going};
ghost use Rattle.pb_api.specs.Numbers.{version_by, helpers_in_bits};
ghost use Rattle.pb_api.specs.Runs.{column_numbered, reply_given, content_given, old_given, record_given, StopsWithReplies, write_made, writes_made, reached_ask, reached_end, reached_nothing, RunReaches, RunsProgram, IsRunBy};

use crate::kind::{AnswerKind, KindNumber};
use crate::numbers::{helpers_of, profile_of, version_of};
use pb_accepted::Accepted;
use pb_base::{COLUMNS, Cell, Column, Content, MAX_CELLS, NoMemory, Revision, Row, Ts, Value};
use pb_finished::Finished;
use pb_helpers::{Ask, HelperTable, Record, Reply, Version};
use pb_isa::Profile;
use pb_registry::accept_in;
use pb_verify::VerifyFault;
use pb_vm::{MachinePhase, Moved, Vm};
use std::alloc::Global;
use std::sync::Arc;

/// The change that a run is on, of which its change record is made: the cell, when the transaction that changed it began and
/// committed, and what it wrote; and up to where the observer has acknowledged changes before. A number that says whether
/// is 0 for no.
#[repr(C)]
#[derive(Clone, Copy)]
pub struct ChangeGiven {
    pub row: u64,
    /// 0 to 15.
    pub column: u32,
    /// Whether the cell got a value. Else it was deleted.
    pub has_value: u32,
    pub value: [u8; 32],
    pub start: u64,
    pub commit: u64,
    pub acknowledged: u64,
    /// Whether the cell had a value at the acknowledged timestamp, which only a record of version 2 shows.
    pub has_old: u32,
    pub old: [u8; 32],
}

/// What an ask is answered: whether the cell has a value, and the value.
#[repr(C)]
#[derive(Clone, Copy)]
pub struct ReplyGiven {
    pub has_value: u32,
    pub value: [u8; 32],
}

/// A write: the cell, and the value that it gets, or none where it is deleted.
#[repr(C)]
#[derive(Clone, Copy)]
pub struct WriteMade {
    pub row: u64,
    pub column: u32,
    pub has_value: u32,
    pub value: [u8; 32],
}

/// Where a run led.
#[repr(C)]
#[derive(Clone, Copy)]
pub struct Reached {
    pub kind: KindNumber,
    /// The first slot at fault, where the program is refused.
    pub slot: u32,
    /// The lowest code there.
    pub code: u32,
    /// How many instructions are done: at an ask those before it, at the end the exit too.
    pub instructions: u32,
    /// How many of the replies it has had.
    pub replied: usize,
    /// The row and the column of the cell that it asks for.
    pub row: u64,
    pub column: u32,
    /// How many cells it writes, where it has ended.
    pub write_count: u32,
    /// Register 0 at the exit.
    pub result: u64,
    /// The writes, in the order of the first write to each cell.
    pub writes: [WriteMade; MAX_CELLS],
}

// ---- what C gives

// The content that the cell got.
fn content_of(change: &ChangeGiven) -> Content
    ensures { result ≡ content_given change.now }
{
    if change.has_value == 0 {
        Content::Deleted
    } else {
        Content::Value(change.value)
    }
}

// The value that the cell had at the acknowledged timestamp.
fn old_of(change: &ChangeGiven) -> Option<Value>
    ensures { result ≡ old_given change.now }
{
    if change.has_old == 0 {
        None
    } else {
        Some(change.old)
    }
}

// The change record.
fn record_of(version: Version, change: &ChangeGiven, column: Column) -> Record
    requires { column ≡ change.now.column }
    ensures bytes { result ≡ record_given version change.now }
    ensures size { length result ≡ size_of version }
{
    let found = Revision {
        start: Ts(change.start),
        commit: Ts(change.commit),
        content: content_of(change),
    };
    let cell = Cell::Data(Row(change.row), column);
    Record::of_version(
        version,
        cell,
        &found,
        Ts(change.acknowledged),
        old_of(change),
    )
}

// The reply.
fn reply_from(given: &ReplyGiven) -> Reply
    ensures { reply_of result ≡ reply_given given.now }
{
    if given.has_value == 0 {
        Reply::Absent
    } else {
        Reply::Found(given.value)
    }
}

// ---- what C gets

// Places without a write.
fn no_writes() -> [WriteMade; MAX_CELLS]
    ensures { result ≡ writes_made [] }
{
    let no_write = WriteMade {
        row: 0,
        column: 0,
        has_value: 0,
        value: [0; 32],
    };
    [no_write; MAX_CELLS]
}

// The answer of a kind that says nothing of a run.
fn without_run(kind: AnswerKind, slot: u32, code: u32) -> Reached
    ensures { result ≡ reached_nothing kind slot code }
{
    Reached {
        kind: kind.number(),
        slot,
        code,
        instructions: 0,
        replied: 0,
        row: 0,
        column: 0,
        write_count: 0,
        result: 0,
        writes: no_writes(),
    }
}

// The write.
fn write_made(cell: &Cell, content: &Content) -> WriteMade
    ensures { result ≡ write_made (cell.now, content.now) }
{
    let (has_value, value) = match content {
        Content::Value(value) => (1, *value),
        Content::Deleted | Content::Stamp(_) => (0, [0; 32]),
    };
    WriteMade {
        row: cell.row().0,
        column: u32::from(cell.column().number()),
        has_value,
        value,
    }
}

// The writes, and after them empty places.
fn writes_made(writes: &[(Cell, Content)]) -> [WriteMade; MAX_CELLS]
    requires { length writes.now ≤ MAX_CELLS }
    ensures { result ≡ writes_made writes.now }
{
    let mut made = no_writes();
    for (at, write) in writes.iter().enumerate() {
        made[at] = write_made(&write.0, &write.1);
    }
    made
}

// Lets a machine go up to its end, or to the ask after these replies.
fn go_with(vm: &mut Vm, replies: &[ReplyGiven])
    requires going { vm.old.phase ≡ Going }
    requires unasked { vm.old.talk ≡ [] }
    ensures given { SameGiven vm.old vm.new }
    ensures stops { StopsWithReplies vm.new.phase vm.new (map reply_given replies.now) }
{
    for given in replies {
        match vm.follow() {
            Moved::Asks(_) => vm.reply(reply_from(given)),
            Moved::Ended(_) => return,
            Moved::Went => unreachable!(),
        }
    }
    vm.follow();
}

// The answer that a program asks for a cell, after so many replies and instructions.
fn asking(ask: Ask, replied: usize, instructions: u16) -> Reached
    ensures { result ≡ reached_ask replied instructions ask }
{
    Reached {
        kind: KindNumber::asks(),
        slot: 0,
        code: 0,
        instructions: u32::from(instructions),
        replied,
        row: ask.row.0,
        column: u32::from(ask.column.number()),
        write_count: 0,
        result: 0,
        writes: no_writes(),
    }
}

// The answer that a program has ended, after so many instructions.
fn ended(finished: &Finished, instructions: u16) -> Reached
    ensures { result ≡ reached_end (length finished.now.talk) instructions
        finished.now.result finished.now.writes }
{
    // For the proof: it writes 16 cells at most.
    finished.known();
    let writes = finished.writes();
    Reached {
        kind: AnswerKind::Done.number(),
        slot: 0,
        code: 0,
        instructions: u32::from(instructions),
        replied: finished.talk().len(),
        row: 0,
        column: 0,
        write_count: writes.len() as u32,
        result: finished.result(),
        writes: writes_made(writes),
    }
}

// Where a machine on entry leads with these replies.
fn reach(vm: Vm, replies: &[ReplyGiven]) -> Reached
    requires going { vm.phase ≡ Going }
    requires unasked { vm.talk ≡ [] }
    ensures { RunReaches vm.judged vm.bytes vm.start (map reply_given replies.now) result }
{
    let mut vm = vm;
    go_with(&mut vm, replies);
    let instructions = vm.taken();
    match vm.phase() {
        MachinePhase::Asking(ask) => asking(ask, replies.len(), instructions),
        MachinePhase::Over(_) => ended(&vm.finish(), instructions),
        MachinePhase::Going => unreachable!(),
    }
}

// The machine of an accepted program on entry.
fn start_machine(
    alloc: Global,
    accepted: Accepted,
    change_record: Record,
    start: u64,
) -> Result<Vm, NoMemory>
    requires { length change_record ≡ accepted.record_size }
    ensures judged { IfOk result (λ vm. vm.judged ≡ accepted) }
    ensures bytes { IfOk result (λ vm. vm.bytes ≡ change_record) }
    ensures start { IfOk result (λ vm. vm.start ≡ start) }
    ensures talk { IfOk result (λ vm. vm.talk ≡ []) }
    ensures going { IfOk result (λ vm. vm.phase ≡ Going) }
{
    let accepted = Arc::new(alloc, accepted)?;
    Vm::start(alloc, &accepted, change_record, Ts(start))
}

/// Where a program leads on the record of a change with these replies, or why none is run.
pub fn run_program(
    alloc: Global,
    bytes: &[u8],
    profile: Profile,
    version: Version,
    helpers: HelperTable,
    change: &ChangeGiven,
    column: Column,
    start: u64,
    replies: &[ReplyGiven],
) -> Reached
    requires { column ≡ change.now.column }
    ensures { RunsProgram profile version helpers bytes.now change.now start
        (map reply_given replies.now) result }
{
    match accept_in(alloc, profile, version, bytes, helpers) {
        Ok(accepted) => {
            let change_record = record_of(version, change, column);
            match start_machine(alloc, accepted, change_record, start) {
                Ok(vm) => reach(vm, replies),
                Err(refused) => without_run(AnswerKind::NoMemory(refused), 0, 1),
            }
        }
        Err(VerifyFault::Refused(refused)) => without_run(
            AnswerKind::Refused,
            u32::from(refused.slot),
            u32::from(refused.code),
        ),
        Err(VerifyFault::NoMemory(refused)) => without_run(AnswerKind::NoMemory(refused), 0, 1),
    }
}

// The column of this number.
fn column_of(number: u32) -> Option<Column>
    ensures { result ≡ column_numbered number }
{
    if number < u32::from(COLUMNS) {
        Column::new(number as u8)
    } else {
        None
    }
}

/// What the numbers stand for, where each is one of those that it may be.
pub fn run_by_numbers(
    alloc: Global,
    bytes: &[u8],
    profile: u32,
    version: u32,
    helpers: u32,
    change: &ChangeGiven,
    start: u64,
    replies: &[ReplyGiven],
) -> Reached
    ensures { IsRunBy (profile_of profile) (version_by version) (helpers_in_bits helpers)
        (column_numbered change.now.column) bytes.now change.now start
        (map reply_given replies.now) result }
{
    let column = column_of(change.column);
    match (
        profile_of(profile),
        version_of(version),
        helpers_of(helpers),
        column,
    ) {
        (Some(profile), Some(version), Some(helpers), Some(column)) => run_program(
            alloc, bytes, profile, version, helpers, change, column, start, replies,
        ),
        _ => without_run(AnswerKind::BadArgument, 0, 0),
    }
}
