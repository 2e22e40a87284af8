//! `replay`, over paths and sinks in memory.
use crate::carried::{File, Files, Outcome, Unread, carry, has_told, is_cut};
use crate::choices::REPLAYED;
use pb_base::Ts;
use pb_texts::{Options, ReplayFiles};
use std::alloc::Global;
use std::rt::HostRuntime;
use test_fixtures::Unready;

// A replay of these files with the last timestamp given out, whose output takes so many bytes, and then fails or takes none.
fn replay(
    rt: &HostRuntime,
    files: Files,
    clock: u64,
    left: usize,
    fails: bool,
) -> Result<Outcome, Unready> {
    let mut files = files;
    let options = Options::Replay(ReplayFiles {
        manifest: "m",
        script: "s",
        schedule: "e",
        clock: Ts(clock),
    });
    carry(rt, &options, &mut files, left, fails)
}

#[test]
fn memory_for_a_schedule_is_refused(rt: HostRuntime) {
    let bad: File = Ok(b"\xff");
    let files = Files {
        alloc: rt.alloc(),
        manifest: bad,
        script: bad,
        schedule: Err(Unread::NoMemory),
    };
    let outcome = replay(&rt, files, 0, usize::MAX, true);
    assert!(rt; has_told(outcome, "no memory\n"));
}

// Each replay whose output ends at some call prints a beginning of its report, and reports that.
#[test]
fn output_of_a_replay_may_fail(rt: HostRuntime) {
    for case in REPLAYED {
        let report = case.report.as_bytes();
        for j in 0..report.len() {
            for fails in [true, false] {
                let files = case.files(rt.alloc());
                let outcome = replay(&rt, files, case.clock, j, fails);
                let schedule = case.schedule;
                assert!(rt; is_cut(outcome, j, report), "{j} {fails} {schedule}");
            }
        }
    }
}
