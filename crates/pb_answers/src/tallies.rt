//! How often each observer ran: the numbers that are kept beside a table, since its acknowledgments are of some runs alone
//! once a log was compacted.
ghost use Rattle.std.specs.Prelude.{◌≡◌, IfOk, slice_index_or};
ghost use Rattle.pb_keeper.specs.Stats.{kept_table, no_runs};
ghost use Rattle.pb_answers.specs.Lists.{tallies_by, tallies_in};

use pb_accepted::Observer;
use pb_base::NoMemory;
use pb_keeper::ObserverStats;
use pb_script::Tally;
use pb_state::State;
use pb_store::Tablet;
use std::alloc::{AllocError, Global};

// The committed runs of the observer of this number.
fn runs_of(stats: &[ObserverStats], number: usize) -> usize
    ensures { result ≡ (slice_index_or stats.now number no_runs).runs }
{
    match stats.get(number) {
        Some(of_observer) => of_observer.runs as usize,
        None => 0,
    }
}

fn tally_of(alloc: Global, observer: &Observer, runs: usize) -> Result<Tally, AllocError>
    ensures { IfOk result (λ t. t ≡ (observer.now.name, runs)) }
{
    let name = String::from_str(alloc, observer.name.as_str())?;
    Ok(Tally { name, runs })
}

// The observers' names, each with its number of runs.
fn tallies_by(
    alloc: Global,
    observers: &[Observer],
    stats: &[ObserverStats],
) -> Result<Vec<Tally>, NoMemory>
    ensures { IfOk result (λ v. v.items
        ≡ tallies_by (λ o. (slice_index_or stats.now o no_runs).runs) 0 observers.now) }
{
    let mut tallies = Vec::new(alloc);
    for number in 0..observers.len() {
        let tally = tally_of(alloc, &observers[number], runs_of(stats, number))?;
        tallies.push(tally)?;
    }
    Ok(tallies)
}

/// Each observer's name, with the number of its committed runs.
pub(crate) fn tallies_of<T: Tablet>(
    alloc: Global,
    state: &State<T>,
    stats: &[ObserverStats],
) -> Result<Vec<Tally>, NoMemory>
    ensures { IfOk result (λ v. v.items ≡ tallies_in (kept_table state.now stats.now)) }
{
    tallies_by(alloc, state.observers(), stats)
}
