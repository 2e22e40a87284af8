//! The texts of a run and of a replay, read in the order in which their files are named. Each
//! reader returns want of memory in a type of its own; here it becomes one fault, so that it is
//! reported alike wherever it comes.
ghost use Rattle.std.specs.Prelude.{◌≡◌, ◌≤◌, length, Ok, IfOk, IfErr};
ghost use Rattle.pb_base.specs.declared.limits.TheConstants.{MAX_OBSERVERS};
ghost use Rattle.pb_registry.specs.Judging.{ReadsManifest};
ghost use Rattle.pb_parse.specs.ScriptLines.{script_of};
ghost use Rattle.pb_parse.specs.Schedules.{schedule_of};
ghost use Rattle.pb_driver.specs.Texts.{IsBadManifest, IsBadScript, IsBadSchedule, IsRunRead, IsRunUnread, IsReplayRead, IsReplayUnread};

use crate::fault::RunFault;
use pb_accepted::Observer;
use pb_base::Batch;
use pb_parse::{Event, ScriptFault, parse_schedule, parse_script};
use pb_registry::Registry;
use std::alloc::Global;

// The manifest's observers.
fn observers_in(alloc: Global, manifest: &str) -> Result<Vec<Observer>, RunFault>
    ensures ok { IfOk result (λ v. ReadsManifest manifest.now (Ok v.items)) }
    ensures few { IfOk result (λ v. length v.items ≤ MAX_OBSERVERS) }
    ensures err { IfErr result (IsBadManifest manifest.now) }
{
    match Registry::from_json(alloc, manifest) {
        Ok(registry) => match registry.into_observers(alloc) {
            Ok(observers) => Ok(observers),
            Err((_, refused)) => Err(RunFault::NoMemory(refused)),
        },
        Err(fault) => match fault.memory() {
            Ok(refused) => Err(RunFault::NoMemory(refused)),
            Err(fault) => Err(RunFault::Manifest(fault)),
        },
    }
}

// The script's changes.
fn changes_in(alloc: Global, script: &str) -> Result<Vec<Batch>, RunFault>
    ensures ok { IfOk result (λ v. script_of script.now ≡ Ok v.items) }
    ensures err { IfErr result (IsBadScript script.now) }
{
    match parse_script(alloc, script) {
        Ok(batches) => Ok(batches),
        Err(ScriptFault::NoMemory(refused)) => Err(RunFault::NoMemory(refused)),
        Err(fault) => Err(RunFault::Script(fault)),
    }
}

// The schedule's events, for these observers: it is read last, since it names the manifest's observers.
fn events_in(alloc: Global, schedule: &str, observers: &[Observer]) -> Result<Vec<Event>, RunFault>
    requires { length observers.now ≤ MAX_OBSERVERS }
    ensures ok { IfOk result (λ v. schedule_of observers.now schedule.now ≡ Ok v.items) }
    ensures err { IfErr result (IsBadSchedule observers.now schedule.now) }
{
    match parse_schedule(alloc, schedule, observers) {
        Ok(events) => Ok(events),
        Err(ScriptFault::NoMemory(refused)) => Err(RunFault::NoMemory(refused)),
        Err(fault) => Err(RunFault::Schedule(fault)),
    }
}

/// What the texts of a run are read as, each in turn: if both are at fault, the manifest's fault is
/// returned.
pub fn read_run(
    alloc: Global,
    manifest: &str,
    script: &str,
) -> Result<(Vec<Observer>, Vec<Batch>), RunFault>
    ensures ok { IfOk result (λ t. IsRunRead manifest.now script.now t.0.items t.1.items) }
    ensures few { IfOk result (λ t. length t.0.items ≤ MAX_OBSERVERS) }
    ensures err { IfErr result (IsRunUnread manifest.now script.now) }
{
    let observers = observers_in(alloc, manifest)?;
    let batches = changes_in(alloc, script)?;
    Ok((observers, batches))
}

/// What the texts of a replay are read as, each in turn: those of a run, and then the schedule.
pub fn read_replay(
    alloc: Global,
    manifest: &str,
    script: &str,
    schedule: &str,
) -> Result<(Vec<Observer>, Vec<Batch>, Vec<Event>), RunFault>
    ensures ok { IfOk result
        (λ t. IsReplayRead manifest.now script.now schedule.now t.0.items t.1.items t.2.items) }
    ensures few { IfOk result (λ t. length t.0.items ≤ MAX_OBSERVERS) }
    ensures err { IfErr result (IsReplayUnread manifest.now script.now schedule.now) }
{
    let (observers, batches) = read_run(alloc, manifest, script)?;
    let events = events_in(alloc, schedule, &observers)?;
    Ok((observers, batches, events))
}
