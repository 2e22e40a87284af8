//! Runs one BPF program by the crates of programs alone, without a table: reads its bytes, has them judged, starts a machine
//! on the record of a change, answers what the program asks, and prints what it leaves.
#![tactic(auto)]

use anyhow::{Context, Result, bail};
use pb_base::{Cell, Column, Content, Revision, Row, Ts};
use pb_decode::decode;
use pb_finished::Finished;
use pb_helpers::{HelperTable, Record, Reply};
use pb_verify::verify;
use pb_vm::{MachinePhase, Vm};
use std::sync::Arc;

// Adds one to what column 1 of the changed row holds. A line is a slot; beside it stands what `percobpf dis` lists.
const ADD_ONE: [u8; 120] = [
    0xbf, 0x16, 0, 0, 0, 0, 0, 0, // mov64 r6, r1
    0x79, 0x61, 0, 0, 0, 0, 0, 0, // ldxdw r1, [r6+0]
    0xb7, 0x02, 0, 0, 1, 0, 0, 0, // mov64 r2, 1
    0xbf, 0xa3, 0, 0, 0, 0, 0, 0, // mov64 r3, r10
    0x07, 0x03, 0, 0, 0xe0, 0xff, 0xff, 0xff, // add64 r3, -32
    0x85, 0, 0, 0, 1, 0, 0, 0, // call 1
    0x79, 0xa1, 0xe0, 0xff, 0, 0, 0, 0, // ldxdw r1, [r10-32]
    0x07, 0x01, 0, 0, 1, 0, 0, 0, // add64 r1, 1
    0x7b, 0x1a, 0xe0, 0xff, 0, 0, 0, 0, // stxdw [r10-32], r1
    0x79, 0x61, 0, 0, 0, 0, 0, 0, // ldxdw r1, [r6+0]
    0xb7, 0x02, 0, 0, 1, 0, 0, 0, // mov64 r2, 1
    0xbf, 0xa3, 0, 0, 0, 0, 0, 0, // mov64 r3, r10
    0x07, 0x03, 0, 0, 0xe0, 0xff, 0xff, 0xff, // add64 r3, -32
    0x85, 0, 0, 0, 2, 0, 0, 0, // call 2
    0x95, 0, 0, 0, 0, 0, 0, 0, // exit
];

// More than two turns for each instruction of the program: it does no more instructions than it has slots.
const MOST_TURNS: u32 = 100;

// The value whose first byte this is, and whose others are 0.
fn value(first: u8) -> [u8; 32] {
    let mut value = [0; 32];
    value[0] = first;
    value
}

// Runs a machine to its end, and answers 41 for each cell that it asks for.
fn run(rt: &HostRuntime, vm: Vm) -> Result<Finished> {
    let mut vm = vm;
    for _turn in 0..MOST_TURNS {
        // Each call asks for the phase in whose arm it stands.
        match vm.phase() {
            MachinePhase::Going => {
                vm.follow();
            }
            MachinePhase::Asking(ask) => {
                println!(rt; "asks for cell {} {}", ask.row.0, ask.column.number())?;
                vm.reply(Reply::Found(value(41)));
            }
            MachinePhase::Over(result) => {
                println!(rt; "ends with {result} after {} instructions", vm.taken())?;
                return Ok(vm.finish());
            }
        }
    }
    bail!("too many turns")
}

// Prints what a run writes.
fn tell(rt: &HostRuntime, finished: &Finished) -> Result<()> {
    for (cell, content) in finished.writes() {
        let row = cell.row().0;
        let column = cell.column().number();
        match content {
            Content::Value(value) => println!(rt; "writes {} to cell {row} {column}", value[0])?,
            _ => println!(rt; "deletes cell {row} {column}")?,
        }
    }
    Ok(())
}

fn main(rt: HostRuntime) -> Result<()> {
    let alloc = rt.alloc();
    let program = decode(alloc, &ADD_ONE)?;
    let accepted = Arc::new(alloc, verify(alloc, program, HelperTable::all())?)?;
    println!(rt; "accepted {} slots", accepted.slots())?;

    // The change that it runs on: cell 7 0 got the value 5 from the transaction that began at 1 and committed at 2.
    let cell = Cell::Data(Row(7), Column::new(0).context("no column")?);
    let change = Revision {
        start: Ts(1),
        commit: Ts(2),
        content: Content::Value(value(5)),
    };
    // `Vm::start` asks for a record of the size that the program is judged for, which that of its version has.
    let record = Record::of_version(accepted.version(), cell, &change, Ts(0), None);
    let vm = Vm::start(alloc, &accepted, record, Ts(3))?;
    let finished = run(&rt, vm)?;
    tell(&rt, &finished)
}
