//! The story of a replay, from its texts to its report: the way of `replay_texts`, which stands apart, so that no
//! contract of the command has a case for lines.
ghost use Rattle.std.specs.Prelude.{◌≡◌, false, length};
ghost use Rattle.pb_store.specs.Contents.{nothing};
ghost use Rattle.pb_base.specs.Taking.{taking};
ghost use Rattle.percobpf_story.specs.Replays.{of_story, TellsTexts};

use pb_base::{Sink, Ts};
use pb_driver::{RunFault, open_replay};
use pb_store::{Table, Tablet};
use pb_story::{StoryFault, tell_story};
use pb_texts::Excerpt;
use std::alloc::Global;

// The fault of a story as one of a replay.
fn of_story(fault: StoryFault) -> RunFault
    ensures { result ≡ of_story fault }
{
    match fault {
        StoryFault::Event(fault) => RunFault::Event(fault),
        StoryFault::Output => RunFault::Output,
        StoryFault::NoMemory(refused) => RunFault::NoMemory(refused),
    }
}

/// Lets a schedule's events happen in a world of a manifest's observers and a script's changes, over an empty table with
/// all its seats and `last` the last timestamp given out, writes the line of each of the excerpt, and then the report of what
/// they left.
///
/// The first fault is reported: the manifest's, the script's, the schedule's, an event's, a failed write, or want of memory. It
/// ends the table on every path.
pub fn tell_texts<T: Tablet, S: Sink>(
    alloc: Global,
    manifest: &str,
    script: &str,
    schedule: &str,
    table: Table<T>,
    last: Ts,
    excerpt: &Excerpt,
    sink: &mut S,
) -> Result<(), RunFault>
    requires empty { table.contents ≡ nothing }
    requires unfailed { S.failed sink.old ≡ false }
    ensures { TellsTexts excerpt.now (length table.firsts) last.0
        manifest.now script.now schedule.now (taking S.taken S.failed sink.old sink.new) result }
{
    let (world, events) = open_replay(alloc, manifest, script, schedule, table, last)?;
    let mut world = world;
    let outcome = tell_story(alloc, &mut world, &events, excerpt, sink);
    let (shared, _seats) = world.close();
    shared.close();
    match outcome {
        Ok(()) => Ok(()),
        Err(fault) => Err(of_story(fault)),
    }
}
