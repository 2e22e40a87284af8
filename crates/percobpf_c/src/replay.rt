//! What C calls for a replay.
ghost use Rattle.pb_api.specs.Answers.{buffer_call};
ghost use Rattle.pb_api.specs.Replays.{IsReplayed};

use pb_api::{TextAnswer, replay};
use std::alloc::Global;

/// Lets the events of a schedule happen in a new table of a manifest's observers and a script's changes, with a clock as the
/// last timestamp given out: `out` gets the report of what they left, or the text of the first fault.
#[unsafe(no_mangle)]
pub extern "C" fn percobpf_replay(
    alloc: Global,
    manifest: &[u8],
    script: &[u8],
    schedule: &[u8],
    clock: u64,
    out: &mut [u8],
) -> TextAnswer
    ensures { IsReplayed clock manifest.now script.now schedule.now
        (buffer_call out.old out.new result) }
{
    replay(alloc, manifest, script, schedule, clock, out)
}
