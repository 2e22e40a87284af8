//! A replay, from its texts to its report.
ghost use Rattle.std.specs.Prelude.{◌≡◌, false, length, IfOk, IfErr};
ghost use Rattle.pb_store.specs.Contents.{nothing};
ghost use Rattle.pb_base.specs.Taking.{taking};
ghost use Rattle.pb_base.specs.Reasons.{memory_refusal};
ghost use Rattle.pb_driver.specs.Texts.{IsReplayUnread, memory_fault};
ghost use Rattle.pb_driver.specs.Replays.{EventsEnd, OpensReplay, ReplaysTexts};

use crate::fault::RunFault;
use crate::texts::read_replay;
use pb_base::{MAX_ENTRIES, MAX_SEATS, Sink, Ts};
use pb_core::{OpenRefused, Shared};
use pb_parse::Event;
use pb_script::report;
use pb_store::{Table, Tablet};
use pb_world::{EventFault, World, WorldFault};
use std::alloc::Global;

// The fault of an event as one of the replay. Want of memory is no event's own, so it is reported
// without a number.
fn fault_of(fault: WorldFault) -> RunFault
    ensures { result ≡ Rattle.pb_driver.specs.Replays.of_event fault.event fault.fault }
{
    let WorldFault { event, fault } = fault;
    match fault {
        EventFault::NoMemory(refused) => RunFault::NoMemory(refused),
        fault => RunFault::Event(WorldFault { event, fault }),
    }
}

/// Ends an empty table that wasn't opened, which was for want of memory.
pub fn unopened<T: Tablet>(refused: OpenRefused<T>) -> RunFault
    requires { refused.refusal ≡ memory_refusal }
    ensures { result ≡ memory_fault }
{
    let OpenRefused {
        table,
        observers: _,
        refusal,
    } = refused;
    table.close();
    match refusal.memory() {
        Ok(refused) => RunFault::NoMemory(refused),
        Err(_) => unreachable!(),
    }
}

// Lets the events happen in a world, and writes the report.
fn run<T: Tablet, S: Sink>(
    alloc: Global,
    world: &mut World<T>,
    events: &[Event],
    sink: &mut S,
) -> Result<(), RunFault>
    requires unfailed { S.failed sink.old ≡ false }
    ensures { EventsEnd world.old events.now (taking S.taken S.failed sink.old sink.new) result }
{
    match world.run(alloc, events) {
        Ok(_notes) => match report(alloc, sink, world.shared()) {
            Ok(()) => Ok(()),
            Err(fault) => Err(fault.into()),
        },
        Err(fault) => Err(fault_of(fault)),
    }
}

/// The world of a manifest's observers and a script's changes, over an empty table with [`MAX_SEATS`] seats and `last` the
/// last timestamp given out, and a schedule's events for it.
///
/// Returns the first fault: the manifest's, the script's, the schedule's, or want of memory. The
/// table is ended then.
pub fn open_replay<T: Tablet>(
    alloc: Global,
    manifest: &str,
    script: &str,
    schedule: &str,
    table: Table<T>,
    last: Ts,
) -> Result<(World<T>, Vec<Event>), RunFault>
    requires empty { table.contents ≡ nothing }
    ensures ok { IfOk result
        (λ o. OpensReplay (length table.firsts) last.0
        manifest.now script.now schedule.now o.0 o.1.items) }
    ensures err { IfErr result (IsReplayUnread manifest.now script.now schedule.now) }
{
    let (observers, batches, events) = match read_replay(alloc, manifest, script, schedule) {
        Ok(texts) => texts,
        Err(fault) => {
            table.close();
            return Err(fault);
        }
    };
    // All seats there are, since a schedule may name each of their actors.
    match Shared::open(alloc, table, observers, MAX_SEATS, last, MAX_ENTRIES) {
        Ok((shared, seats)) => match World::open(alloc, shared, seats, batches) {
            Ok(world) => Ok((world, events)),
            Err((shared, _seats, _batches, refused)) => {
                shared.close();
                Err(RunFault::NoMemory(refused))
            }
        },
        Err(refused) => Err(unopened(refused)),
    }
}

/// Lets a schedule's events happen in a world of a manifest's observers and a script's changes, over an empty table with
/// [`MAX_SEATS`] seats and `last` the last timestamp given out, and writes the report of what they left.
///
/// Returns the first fault: the manifest's, the script's, the schedule's, an event's, a failed
/// write, or want of memory. It ends the table on every path.
pub fn replay_texts<T: Tablet, S: Sink>(
    alloc: Global,
    manifest: &str,
    script: &str,
    schedule: &str,
    table: Table<T>,
    last: Ts,
    sink: &mut S,
) -> Result<(), RunFault>
    requires empty { table.contents ≡ nothing }
    requires unfailed { S.failed sink.old ≡ false }
    ensures { ReplaysTexts (length table.firsts) last.0 manifest.now script.now schedule.now
        (taking S.taken S.failed sink.old sink.new) result }
{
    let (world, events) = open_replay(alloc, manifest, script, schedule, table, last)?;
    let mut world = world;
    let outcome = run(alloc, &mut world, &events, sink);
    let (shared, _seats) = world.close();
    shared.close();
    outcome
}
