//! Runs of observers, as what they declare, right or wrong.
ghost use Rattle.std.specs.Prelude.{◌≡◌, length};
ghost use Rattle.std.specs.Option.{IfSome};
ghost use Rattle.pb_helpers.specs.Bytes.{size_of};

use crate::words::Words;
use pb_accepted::Observer;
use pb_base::{Content, Revision, Value};
use pb_finished::Finished;
use pb_helpers::{Record, Reply, Version};
use pb_steps::EndedRun;
use pb_vm::{MachinePhase, Vm};
use std::alloc::Global;

fn value_in(words: &mut Words) -> Option<Option<Value>> {
    match words.content()? {
        Content::Value(value) => Some(Some(value)),
        _ => Some(None),
    }
}

// The record of this version that the words give.
fn record_in(words: &mut Words, version: Version) -> Option<Record>
    ensures { IfSome result (λ r. length r ≡ size_of version) }
{
    let cell = words.cell(&[])?;
    let found = Revision {
        start: words.ts()?,
        commit: words.ts()?,
        content: words.content()?,
    };
    let acknowledged = words.ts()?;
    let old = value_in(words)?;
    Some(Record::of_version(version, cell, &found, acknowledged, old))
}

// A machine's run to its end, where each ask is answered by this reply.
fn finished_by(vm: Vm, reply: Reply) -> Option<Finished> {
    let mut vm = vm;
    for _ in 0..64u32 {
        match vm.phase() {
            MachinePhase::Going => {
                vm.follow();
            }
            MachinePhase::Asking(_) => vm.reply(reply),
            MachinePhase::Over(_) => {}
        }
    }
    match vm.phase() {
        MachinePhase::Over(_) => Some(vm.finish()),
        _ => None,
    }
}

/// The run that the words give, from the name of the observer whose program runs on.
pub fn run_in(alloc: Global, observers: &[Observer], words: &mut Words) -> Option<EndedRun> {
    let number = words.observer(observers)?.number();
    let program = &observers.get(usize::from(number))?.program;
    let start = words.ts()?;
    let record = record_in(words, program.version())?;
    let reply = match value_in(words)? {
        Some(value) => Reply::Found(value),
        None => Reply::Absent,
    };
    let vm = Vm::start(alloc, program, record, start).ok()?;
    EndedRun::new(alloc, finished_by(vm, reply)?).ok()
}
