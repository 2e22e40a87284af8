//! `run`, over paths and sinks in memory.
ghost use Rattle.std.specs.Prelude.{◌≡◌, ◌≤◌};

use crate::carried::{Files, Outcome, Unread, carry_in_threads, has_printed, has_told, is_cut};
use pb_texts::Options;
use std::alloc::Global;
use std::rt::HostRuntime;
use std::sync::Wait;
use std::thread::Threads;
use test_fixtures::Unready;

const MANIFEST: &[u8] = b"{\"profile\":1,\"observers\":[]}";

// A run of these files by so many workers.
fn run<R: Threads + Wait + Sync>(
    rt: &R,
    alloc: Global,
    files: Files,
    workers: u32,
    left: usize,
    fails: bool,
) -> Result<Outcome, Unready>
    requires some { 1 ≤ workers }
    requires few { workers ≤ 63 }
{
    let mut files = files;
    let options = Options::Run {
        manifest: "m",
        script: "s",
        workers,
        swaps: 0,
    };
    carry_in_threads(rt, alloc, &options, &mut files, left, fails)
}

#[test]
fn memory_for_a_manifest_is_refused(rt: HostRuntime) {
    let files = Files {
        alloc: rt.alloc(),
        manifest: Err(Unread::NoMemory),
        script: Ok(b""),
        schedule: Ok(b""),
    };
    assert!(rt;
        has_told(
            run(&rt, rt.alloc(), files, 1, usize::MAX, true),
            "no memory\n"
        )
    );
}

// A script of one change.
fn one_change<'a>(alloc: Global) -> Files<'a> {
    Files {
        alloc,
        manifest: Ok(MANIFEST),
        script: Ok(b"put 7 0 2a\n"),
        schedule: Ok(b""),
    }
}

#[test]
fn output_may_fail_at_any_call(rt: HostRuntime) {
    let report = b"cell 7 0 commit 2 value 2a\nquiet\n";
    for j in 0..report.len() {
        for fails in [true, false] {
            let files = one_change(rt.alloc());
            let outcome = run(&rt, rt.alloc(), files, 1, j, fails);
            assert!(rt; is_cut(outcome, j, report), "{j} {fails}");
        }
    }
    for workers in [1, 2, 63u32] {
        let files = one_change(rt.alloc());
        let outcome = run(&rt, rt.alloc(), files, workers, report.len(), true);
        assert!(rt;
            has_printed(&outcome.expect(&rt, "memory"), report),
            "{workers}"
        );
    }
}
