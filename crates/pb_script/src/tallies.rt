//! How often each observer ran: its committed runs, by the entries that began them.
ghost use Rattle.std.specs.Prelude.{◌≡◌, IfOk};
ghost use Rattle.pb_script.specs.Tallies.{AreTallies, IsTally};
ghost use Rattle.pb_history.specs.RunCounts.{IsRunCount, begins_committed_run, phase_is_committed};

use crate::reports::Tally;
use pb_accepted::Observer;
use pb_base::NoMemory;
use pb_core::Shared;
use pb_history::KeptEntry;
use pb_steps::{Answer, Phase, Work};
use pb_store::Tablet;
use std::alloc::Global;

fn phase_is_committed(phase: Option<Phase>) -> bool
    ensures { result ≡ phase_is_committed phase }
{
    matches!(phase, Some(Phase::Committed(_)))
}

// Whether the entry begins a run of the observer that is committed. Begins are counted, since a run has one.
fn begins_committed_run<T: Tablet>(shared: &Shared<T>, number: usize, entry: &KeptEntry) -> bool
    ensures { result
        ≡ begins_committed_run shared.now.state number entry.now.step entry.now.answer }
{
    let Some(work) = entry.call().begins() else {
        return false;
    };
    let Work::Run(observer, _) = work else {
        return false;
    };
    let Answer::At(start) = entry.call().answer() else {
        return false;
    };
    observer.number() as usize == number && phase_is_committed(shared.phase(start))
}

fn run_count<T: Tablet>(shared: &Shared<T>, number: usize) -> usize
    ensures { IsRunCount shared.now.state.observers shared.now.journal number result }
{
    let mut count = 0;
    for entry in shared.journal() {
        if begins_committed_run(shared, number, entry) {
            count += 1;
        }
    }
    count
}

fn tally_of<T: Tablet>(
    alloc: Global,
    shared: &Shared<T>,
    number: usize,
    observer: &Observer,
) -> Result<Tally, NoMemory>
    ensures { IfOk result
        (λ t. IsTally shared.now.state.observers shared.now.journal number observer.now t) }
{
    let name = String::from_str(alloc, observer.name.as_str())?;
    let runs = run_count(shared, number);
    Ok(Tally { name, runs })
}

/// Each observer's name, with the number of its committed runs.
pub(crate) fn tallies_of<T: Tablet>(
    alloc: Global,
    shared: &Shared<T>,
) -> Result<Vec<Tally>, NoMemory>
    ensures { IfOk result
        (λ v. AreTallies shared.now.state.observers shared.now.journal 0
        shared.now.state.observers v.items) }
{
    let mut tallies = Vec::new(alloc);
    let observers = shared.observers();
    for number in 0..observers.len() {
        let tally = tally_of(alloc, shared, number, &observers[number])?;
        tallies.push(tally)?;
    }
    Ok(tallies)
}
