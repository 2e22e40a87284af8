//! `run` and `replay` over each choice of two sorts of tablet: all print the same.
ghost use Rattle.std.specs.Prelude.{◌≡◌, vec_len};
ghost use Rattle.pb_texts.specs.CommandLines.{IsInRange, swaps_asked};

use crate::carried::{Files, Outcome, carry_over, has_printed};
use pb_base::Ts;
use pb_texts::{Options, ReplayFiles};
use std::alloc::Global;
use std::process::Abort;
use std::rt::HostRuntime;
use std::sync::Wait;
use std::thread::Threads;
use test_fixtures::{Unready, spares_of, table_of};

// No observers.
const NONE: &str = "{\"profile\":1,\"observers\":[]}";

// An observer of column 0 that does nothing.
const WATCH: &str =
    "{\"profile\":1,\"observers\":[{\"name\":\"watch\",\"column\":0,\"helpers\":[],\"code\":\"b7000000000000009500000000000000\"}]}";

// One that copies the value of its cell to column 1.
const COPY: &str =
    "{\"profile\":1,\"observers\":[{\"name\":\"copy\",\"column\":0,\"helpers\":[2],\"code\":\"bf1600000000000079623000000000007b2ae0ff0000000079623800000000007b2ae8ff0000000079624000000000007b2af0ff0000000079624800000000007b2af8ff000000007961000000000000b702000001000000bfa300000000000007030000e0ffffff8500000002000000b7000000000000009500000000000000\"}]}";

// Whether the first tablet is a slab, and the second.
const CHOICES: [[bool; 2]; 4] = [[false, false], [false, true], [true, false], [true, true]];

// What a command leaves over tablets of these sorts.
fn outcome_of<R: Threads + Wait + Abort + Sync>(
    rt: &R,
    alloc: Global,
    options: &Options,
    files: Files,
    slabs: [bool; 2],
) -> Result<Outcome, Unready>
    requires { IsInRange options.now }
{
    let mut files = files;
    let spares = spares_of(alloc, slabs, options.swaps() as usize)?;
    assert!(rt;
        spares.len() == options.swaps() as usize,
        "a spare for each swap"
    );
    let table = table_of(alloc, &slabs)?;
    Ok(carry_over(
        rt,
        alloc,
        options,
        &mut files,
        table,
        spares,
        usize::MAX,
        false,
    ))
}

/// What a replay prints, with the last timestamp given out before it.
#[derive(Clone, Copy)]
pub struct Replayed<'a> {
    manifest: &'a str,
    script: &'a str,
    pub schedule: &'a str,
    pub clock: u64,
    pub report: &'a str,
}

impl<'a> Replayed<'a> {
    /// What it is of.
    pub fn files(&self, alloc: Global) -> Files<'a> {
        Files {
            alloc,
            manifest: Ok(self.manifest.as_bytes()),
            script: Ok(self.script.as_bytes()),
            schedule: Ok(self.schedule.as_bytes()),
        }
    }
}

const CHANGE: &str = "put 7 0 2a\n";

const TWO_CELLS: &str = "put 7 1 aa; put 7 0 2a\n";

/// Replays whose reports are worked out by hand.
pub const REPLAYED: [Replayed<'static>; 10] = [
    // Two runs at once: one commits.
    Replayed {
        manifest: WATCH,
        script: CHANGE,
        schedule: "launch 1 change 1\nstep 1 100\nlaunch 1 run watch 7\nlaunch 2 run watch 7\nstep 1\nstep 2\nstep 1 2\nstep 2 2\nstep 1 100\nstep 2 100\n",
        clock: 0,
        report: "cell 7 0 commit 2 value 2a\nruns watch 1\nquiet\n",
    },
    // One run handles two changes.
    Replayed {
        manifest: WATCH,
        script: "put 7 0 2a\nput 7 0 2b\n",
        schedule: "launch 1 change 1\nstep 1 100\nlaunch 1 change 2\nstep 1 100\nlaunch 1 run watch 7\nstep 1 100\n",
        clock: 0,
        report: "cell 7 0 commit 4 value 2b\nruns watch 1\nquiet\n",
    },
    // A crash after the commit of the primary.
    Replayed {
        manifest: WATCH,
        script: TWO_CELLS,
        schedule: "launch 1 change 1\nstep 1 6\ncrash 1\n",
        clock: 0,
        report: "cell 7 0 commit 2 value 2a\ncell 7 1 commit 2 value aa\nruns watch 0\nmarks 0 locks 1\n",
    },
    Replayed {
        manifest: WATCH,
        script: TWO_CELLS,
        schedule: "launch 1 change 1\nstep 1 6\ncrash 1\nclear 7 0\n",
        clock: 0,
        report: "cell 7 0 commit 2 value 2a\ncell 7 1 commit 2 value aa\nruns watch 0\nmarks 1 locks 0\n",
    },
    Replayed {
        manifest: WATCH,
        script: TWO_CELLS,
        schedule: "launch 1 change 1\nstep 1 6\ncrash 1\nclear 7 0\nlaunch 1 run watch 7\nstep 1 100\n",
        clock: 0,
        report: "cell 7 0 commit 2 value 2a\ncell 7 1 commit 2 value aa\nruns watch 1\nquiet\n",
    },
    // A crash before it.
    Replayed {
        manifest: WATCH,
        script: TWO_CELLS,
        schedule: "launch 1 change 1\nstep 1 5\ncrash 1\n",
        clock: 0,
        report: "runs watch 0\nmarks 0 locks 2\n",
    },
    Replayed {
        manifest: WATCH,
        script: TWO_CELLS,
        schedule: "launch 1 change 1\nstep 1 5\ncrash 1\nsettle 7 1\nclear 7 0\n",
        clock: 0,
        report: "runs watch 0\nquiet\n",
    },
    // A lock that is settled before its commit.
    Replayed {
        manifest: WATCH,
        script: CHANGE,
        schedule: "launch 1 change 1\nstep 1 3\nsettle 7 0\nstep 1 100\n",
        clock: 0,
        report: "runs watch 0\nquiet\n",
    },
    // The last timestamp is given out.
    Replayed {
        manifest: WATCH,
        script: CHANGE,
        schedule: "launch 1 change 1\nstep 1\nlaunch 2 change 1\nstep 2\n",
        clock: 18446744073709551614,
        report: "runs watch 0\nquiet\n",
    },
    // Cells in both tablets.
    Replayed {
        manifest: COPY,
        script: "put 7 0 2a; put 1000 0 2b; put 5000 0 2c\n",
        schedule: "launch 1 change 1\nstep 1 100\nlaunch 1 run copy 1000\nstep 1 100\nlaunch 2 run copy 7\nstep 2 5\n",
        clock: 0,
        report: "cell 7 0 commit 2 value 2a\ncell 1000 0 commit 2 value 2b\ncell 1000 1 commit 4 value 2b\ncell 5000 0 commit 2 value 2c\nruns copy 1\nmarks 2 locks 0\n",
    },
];

#[test]
fn replays_print_the_same(rt: HostRuntime) -> Result<(), Unready> {
    let alloc = rt.alloc();
    for case in REPLAYED {
        let options = Options::Replay(ReplayFiles {
            manifest: "m",
            script: "s",
            schedule: "e",
            clock: Ts(case.clock),
        });
        for slabs in CHOICES {
            let outcome = outcome_of(&rt, alloc, &options, case.files(alloc), slabs)?;
            let schedule = case.schedule;
            assert!(rt;
                has_printed(&outcome, case.report.as_bytes()),
                "{slabs:?} {schedule}"
            );
        }
    }
    Ok(())
}

// What a run by so many workers beside so many swaps prints, where nothing is left undone.
fn output_of<'a, R: Threads + Wait + Abort + Sync>(
    rt: &R,
    alloc: Global,
    manifest: &'a str,
    script: &'a str,
    workers: u32,
    swaps: u32,
    slabs: [bool; 2],
) -> Result<Vec<u8>, Unready> {
    assert!(rt;
        workers >= 1 && workers <= 63 && swaps <= 1000,
        "so many there may be"
    );
    let files = Files {
        alloc,
        manifest: Ok(manifest.as_bytes()),
        script: Ok(script.as_bytes()),
        schedule: Ok(b""),
    };
    let options = Options::Run {
        manifest: "m",
        script: "s",
        workers,
        swaps,
    };
    let outcome = outcome_of(rt, alloc, &options, files, slabs)?;
    assert!(rt;
        outcome.status == 0 && outcome.err.is_empty(),
        "{slabs:?} {workers} {swaps}"
    );
    Ok(outcome.out)
}

#[test]
fn runs_by_one_worker_print_the_same(rt: HostRuntime) -> Result<(), Unready> {
    let copied = "cell 7 0 commit 2 value 2a\ncell 7 1 commit 4 value 2a\nruns copy 1\nquiet\n";
    for slabs in CHOICES {
        for swaps in [0u32, 1, 2, 7, 1000] {
            for (manifest, script, report) in [(COPY, CHANGE, copied), (NONE, "", "quiet\n")] {
                let found = output_of(&rt, rt.alloc(), manifest, script, 1, swaps, slabs)?;
                assert!(rt; found.as_slice() == report.as_bytes(), "{slabs:?} {swaps}");
            }
        }
    }
    Ok(())
}

// By several workers the copy commits at 4 or later.
#[test]
fn runs_by_three_workers_copy_later(rt: HostRuntime) -> Result<(), Unready> {
    let before = b"cell 7 0 commit 2 value 2a\ncell 7 1 commit ";
    let behind = b" value 2a\nruns copy 1\nquiet\n";
    for slabs in CHOICES {
        let found = output_of(&rt, rt.alloc(), COPY, CHANGE, 3, 7, slabs)?;
        assert!(rt;
            found.starts_with(before) && found.ends_with(behind),
            "{slabs:?}"
        );
        let digits = found
            .get(before.len()..found.len().saturating_sub(behind.len()))
            .expect(&rt, "a commit stands between");
        let text = str::from_utf8(digits).ok().expect(&rt, "digits");
        let commit: u64 = text.parse().ok().expect(&rt, "a number");
        assert!(rt; commit >= 4, "{slabs:?} {commit}");
    }
    Ok(())
}
