//! `run` where changes are left: the tablet refuses a change for want of memory, which ends the one worker there is.
use crate::carried::{Files, Outcome, carry_over};
use pb_base::NoMemory;
use pb_texts::Options;
use std::alloc::Global;
use std::rt::HostRuntime;
use std::sync::Wait;
use std::thread::Threads;
use test_fixtures::{Unready, refusing_table};

// A script of so many changes, each of the cell that the one before changes.
fn script_of(alloc: Global, changes: u32) -> Result<String, NoMemory> {
    let mut script = String::new(alloc);
    for _ in 0..changes {
        script.push_str("put 7 0 2a\n")?;
    }
    Ok(script)
}

// The text on a worker that was refused in its second change, and on the changes from that on.
fn faults_of(alloc: Global, changes: u32) -> Result<String, NoMemory> {
    let mut faults = String::new(alloc);
    faults.push_str("worker 1 code 1\n")?;
    for before in 1..changes {
        let number = before.saturating_add(1);
        writeln!(faults, "change {number} conflicts")?;
    }
    Ok(faults)
}

// What a run of so many changes leaves, whose third change of the table, the first of the second change, is refused.
fn outcome_of<R: Threads + Wait + Sync>(
    rt: &R,
    alloc: Global,
    script: &str,
) -> Result<Outcome, Unready> {
    let mut files = Files {
        alloc,
        manifest: Ok(b"{\"profile\":1,\"observers\":[]}"),
        script: Ok(script.as_bytes()),
        schedule: Ok(b""),
    };
    let options = Options::Run {
        manifest: "m",
        script: "s",
        workers: 1,
        swaps: 0,
    };
    let table = refusing_table(alloc, 2)?;
    let spares = Vec::new(alloc);
    Ok(carry_over(
        rt,
        alloc,
        &options,
        &mut files,
        table,
        spares,
        usize::MAX,
        false,
    ))
}

#[test]
fn changes_that_are_left_are_told_after_the_report(rt: HostRuntime) -> Result<(), Unready> {
    for changes in [2, 4, 5, 6, 100, 10_000u32] {
        let script = script_of(rt.alloc(), changes)?;
        let outcome = outcome_of(&rt, rt.alloc(), script.as_str())?;
        let faults = faults_of(rt.alloc(), changes)?;
        assert!(rt;
            outcome.status == 1
                && outcome.out.as_slice() == b"cell 7 0 commit 2 value 2a\nquiet\n".as_slice()
                && outcome.err.as_slice() == faults.as_str().as_bytes(),
            "{changes}"
        );
    }
    Ok(())
}
