//! A trial of a program: one run outside any table, on the record of one change, whose asks are answered from a few cells.
//! It makes the machine's steps, so that there is no second way for a program to run.
ghost use Rattle.std.specs.Prelude.{◌≡◌, ◌++◌, [], IfOk, OnOk, flat_map, is_some, length, map, option_and_then, string_bytes};
ghost use Rattle.pb_base.specs.Batch.{content_in};
ghost use Rattle.pb_helpers.specs.Replies.{ask_of, reply_of};
ghost use Rattle.pb_helpers.specs.Bytes.{size_of};
ghost use Rattle.pb_finished.specs.Talk.{talk_of};
ghost use Rattle.pb_sound.specs.Positions.{AreRepliesOf};
ghost use Rattle.pb_steps.specs.Reads.{value_of};
ghost use Rattle.pb_vm.specs.Moves.{IsOver, SameGiven};
ghost use Rattle.pb_vm.specs.declared.moved.MachinePhase.TheVariants.{Going};
ghost use Rattle.pb_story.specs.Trials.{held_by, reply_in, change_start, run_start, acknowledged_before, trial_record, reply_text, ask_line, write_line, end_lines, EndsNow, lines_of_run, IsTrialText};

use crate::cells::{add_cell, add_content};
use pb_accepted::Accepted;
use pb_base::{Cell, Content, NoMemory, Revision, Ts};
use pb_finished::Finished;
use pb_helpers::{Ask, Record, Reply, Version};
use pb_texts::{Trial, TrialCell};
use pb_vm::{Moved, Vm};
use std::alloc::{AllocError, Global};
use std::sync::Arc;

// When the change began: as the first transaction of a table, or as the third.
fn change_start(has_old: bool) -> u64
    ensures { result ≡ change_start has_old }
{
    if has_old { 5 } else { 1 }
}

// When the run began: as the transaction after the change.
fn run_start(has_old: bool) -> Ts
    ensures { result.0 ≡ run_start has_old }
{
    if has_old { Ts(7) } else { Ts(3) }
}

// Which start is acknowledged: that of the run after the first transaction, or none.
fn acknowledged_before(has_old: bool) -> Ts
    ensures { result.0 ≡ acknowledged_before has_old }
{
    if has_old { Ts(3) } else { Ts(0) }
}

// The record of the change.
fn record_of(version: Version, trial: &Trial) -> Record
    ensures record { result ≡ trial_record version trial.now }
    ensures size { length result ≡ size_of version }
{
    let has_old = trial.old.is_some();
    let start = change_start(has_old);
    let found = Revision {
        start: Ts(start),
        commit: Ts(start + 1),
        content: Content::Value(trial.change.value),
    };
    let cell = Cell::Data(trial.change.row, trial.change.column);
    Record::of_version(
        version,
        cell,
        &found,
        acknowledged_before(has_old),
        trial.old,
    )
}

// The value of the first of these cells that is this one.
fn reply_from(cells: &[TrialCell], cell: Cell) -> Reply
    ensures { reply_of result
        ≡ option_and_then value_of (content_in (map held_by cells.now) cell) }
{
    for given in cells {
        if cell == Cell::Data(given.row, given.column) {
            return Reply::Found(given.value);
        }
    }
    Reply::Absent
}

// The reply to an ask.
fn reply_in(trial: &Trial, ask: Ask) -> Reply
    ensures { reply_of result ≡ reply_in trial.now (ask_of ask) }
{
    let cell = Cell::Data(ask.row, ask.column);
    if cell == Cell::Data(trial.change.row, trial.change.column) {
        Reply::Found(trial.change.value)
    } else {
        reply_from(&trial.cells, cell)
    }
}

// Does a machine's steps up to its end, and answers what it asks.
#[tactic(auto, using(crate::proofs::Trials::given_still, crate::proofs::Trials::tries_on, crate::proofs::Trials::went_falls, crate::proofs::Trials::replies_on, crate::proofs::Trials::replies_fall))]
fn run_to_end(vm: &mut Vm, trial: &Trial)
    requires going { vm.old.phase ≡ Going }
    requires unasked { vm.old.talk ≡ [] }
    ensures over { IsOver vm.new.phase }
    ensures given { SameGiven vm.old vm.new }
    ensures replies { AreRepliesOf (reply_in trial.now) vm.new.talk }
    ensures ends { EndsNow vm.new }
{
    loop {
        match vm.step() {
            Moved::Went => {}
            Moved::Asks(ask) => vm.reply(reply_in(trial, ask)),
            Moved::Ended(_) => return,
        }
    }
}

// Adds a reply.
fn add_reply(text: &mut String, reply: &Reply) -> Result<(), AllocError>
    ensures { OnOk result (string_bytes text.new
        ≡ string_bytes text.old ++ reply_text (reply_of reply.now)) }
{
    match reply {
        Reply::Found(value) => add_content(text, &Content::Value(*value)),
        Reply::Absent => text.push_str("absent"),
    }
}

// Adds the line of an ask.
fn add_ask(text: &mut String, ask: &Ask, reply: &Reply) -> Result<(), AllocError>
    ensures { OnOk result (string_bytes text.new
        ≡ string_bytes text.old ++ ask_line (ask_of ask.now, reply_of reply.now)) }
{
    let row = ask.row.0;
    let column = ask.column.number();
    write!(text, "read {row} {column} -> ")?;
    add_reply(text, reply)?;
    text.push_str("\n")
}

// Adds the lines of the asks, in their order.
fn add_asks(text: &mut String, talk: &[(Ask, Reply)]) -> Result<(), AllocError>
    ensures { OnOk result (string_bytes text.new
        ≡ string_bytes text.old ++ flat_map ask_line (talk_of talk.now)) }
{
    for asked in talk {
        add_ask(text, &asked.0, &asked.1)?;
    }
    Ok(())
}

// Adds the line of a write.
fn add_write_line(text: &mut String, cell: &Cell, content: &Content) -> Result<(), AllocError>
    ensures { OnOk result (string_bytes text.new
        ≡ string_bytes text.old ++ write_line (cell.now, content.now)) }
{
    text.push_str("write ")?;
    add_cell(text, &[], cell)?;
    text.push_str(" ")?;
    add_content(text, content)?;
    text.push_str("\n")
}

// Adds the lines of the writes, in their order.
fn add_write_lines(text: &mut String, writes: &[(Cell, Content)]) -> Result<(), AllocError>
    ensures { OnOk result (string_bytes text.new
        ≡ string_bytes text.old ++ flat_map write_line writes.now) }
{
    for write in writes {
        add_write_line(text, &write.0, &write.1)?;
    }
    Ok(())
}

// Adds the lines of the end: register 0, and how many instructions were done.
fn add_end(text: &mut String, end: u64, done: u16) -> Result<(), AllocError>
    ensures { OnOk result (string_bytes text.new ≡ string_bytes text.old ++ end_lines end done) }
{
    write!(text, "result {end}\ninstructions {done}\n")
}

// Adds what is printed of a run that has ended, and of how many instructions it did.
fn add_run(text: &mut String, finished: &Finished, done: u16) -> Result<(), AllocError>
    ensures { OnOk result (string_bytes text.new ≡ string_bytes text.old
        ++ lines_of_run finished.now.talk finished.now.writes finished.now.result done) }
{
    add_asks(text, finished.talk())?;
    add_write_lines(text, finished.writes())?;
    add_end(text, finished.result(), done)
}

/// What an accepted program does in one run outside any table, on the record of a change: a line for each cell that it asks
/// for, with the reply, then one for each write that stands, then the result, and how many instructions were done. A cell
/// that isn't given is absent. The change began at 1 and committed at 2, the run began at 3, and nothing was acknowledged
/// before; with an old value these are 5, 6 and 7, and 3 is acknowledged.
pub fn trial_text(
    alloc: Global,
    accepted: &Arc<Accepted>,
    trial: &Trial,
) -> Result<String, NoMemory>
    ensures { IfOk result (λ s. IsTrialText accepted.now.value trial.now (string_bytes s)) }
{
    let record = record_of(accepted.version(), trial);
    let mut vm = Vm::start(alloc, accepted, record, run_start(trial.old.is_some()))?;
    run_to_end(&mut vm, trial);
    let done = vm.taken();
    let finished = vm.finish();
    let mut text = String::new(alloc);
    add_run(&mut text, &finished, done)?;
    Ok(text)
}
