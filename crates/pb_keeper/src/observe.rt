//! Observers that a table gets after those that it has, and the passes by which they catch up with what was written before.
ghost use Rattle.std.specs.Prelude.{◌≡◌, ◌<◌, ◌≤◌, ◌+◌, ◌++◌, List, None, true, ℕ, length, IfOk, IfErr, OnOk};
ghost use Rattle.pb_base.specs.Batch.{Writes};
ghost use Rattle.pb_base.specs.declared.limits.TheConstants.{MAX_OBSERVERS};
ghost use Rattle.pb_state.specs.MoreObservers.{HasMoreObservers};
ghost use Rattle.pb_steps.specs.Readings.{last_timestamp};
ghost use Rattle.pb_store.specs.Contents.{IsNextMark};
ghost use Rattle.pb_accepted.specs.Observers.{ObserverOf};
ghost use Rattle.pb_keeper.specs.Counts.{commit_count};
ghost use Rattle.pb_keeper.specs.Keeps.{CatchesUp, IsChosenOf, IsFirstTable, KeepsFrom};
ghost use Rattle.pb_keeper.specs.Made.{catching_up_bound, comes_to_rest};
ghost use Rattle.pb_keeper.specs.Stats.{KeptTable, first_stats, kept_table};
ghost use Rattle.pb_keeper.specs.Stops.{IsStop};

use crate::change::Stopped;
use crate::passes::{Drained, MAX_RUNS, drain};
use crate::stats::{ObserverStats, no_stats};
use pb_accepted::Observer;
use pb_base::NoMemory;
use pb_generations::{jobs_keep_tables, snapshots_serve};
use pb_history::steps_keep_sound;
use pb_state::State;
use pb_store::Tablet;
use std::alloc::Global;

// Adds observers to a table, with stats of no run. Memory is asked for before the table has them.
fn add_all<T: Tablet>(
    alloc: Global,
    state: &mut State<T>,
    stats: &mut Vec<ObserverStats>,
    more: Vec<Observer>,
) -> Result<(), NoMemory>
    requires few { length state.old.observers + length more.items ≤ MAX_OBSERVERS }
    ensures observed { OnOk result (HasMoreObservers more.items state.old state.new) }
    ensures stats { OnOk result (stats.new.items ≡ stats.old.items ++ first_stats more.items) }
{
    let mut none = no_stats(alloc, more.len())?;
    stats.reserve(none.len())?;
    state.add_observers(more)?;
    stats.append(&mut none)?;
    Ok(())
}

/// How many runs observers make at most as they catch up: as many as after a change, and one of each observer for each entry
/// of the table that they find, since a marked cell has some.
pub fn catching_up_bound(entries: usize, observers: usize) -> u64
    ensures { result ≡ catching_up_bound entries observers }
{
    MAX_RUNS.saturating_add((entries as u64).saturating_mul(observers as u64))
}

/// Adds observers after those that a table has, which keep what they have acknowledged, and makes passes until the new ones
/// have handled all that was ever written to their columns, or so many passes as may be made, or so many runs, where another is
/// due. It returns what these did.
///
/// The table is one that goes on with the observers that stay of another one, in their new order, before anything else is done
/// with it: all of them stay where observers are only added.
///
/// Where it fails, some cells may be marked, and the table serves for nothing more.
pub fn observe_also<T: Tablet>(
    alloc: Global,
    state: &mut State<T>,
    stats: &mut Vec<ObserverStats>,
    more: Vec<Observer>,
    bound: u64,
) -> Result<Drained, Stopped>
    requires few { length state.old.observers + length more.items ≤ MAX_OBSERVERS }
    ensures observers { OnOk result
        (state.new.observers ≡ state.old.observers ++ more.items) }
    // The runs are those of the drain by which they caught up, and it rests if that does.
    ensures caught_up { IfOk result (λ d. (u : CatchesUp more.items
        (kept_table state.old stats.old.items) (kept_table state.new stats.new.items))
        × (u.bound ≡ bound)
        × (d.runs ≡ commit_count u.drained.said)
        × (d.rests ≡ comes_to_rest u.drained.form.form)) }
    // Where it rests no cell is marked.
    ensures quiet { IfOk result (λ d. d.rests ≡ true → IsNextMark state.new.marks None None) }
    // From what was chosen of a table that keeps changes it is a generation's beginning,
    // after all of them.
    ensures begins { (limit : ℕ) (past changes : List Writes) (first old : KeptTable)
        (places : List ℕ) (front : List ObserverOf) → IsFirstTable past first
        → KeepsFrom limit first changes old → old.state.clock < last_timestamp
        → IsChosenOf places front old (kept_table state.old stats.old.items)
        → OnOk result (IsFirstTable (past ++ changes)
        (kept_table state.new stats.new.items)) }
    // Then it conflicts with nothing.
    ensures stops { (limit : ℕ) (past changes : List Writes) (first old : KeptTable)
        (places : List ℕ) (front : List ObserverOf) → IsFirstTable past first
        → KeepsFrom limit first changes old → old.state.clock < last_timestamp
        → IsChosenOf places front old (kept_table state.old stats.old.items)
        → IfErr result (λ e. IsStop e state.new) }
{
    // For the proof: a table that is kept over generations is so with other observers, and conflicts with nothing.
    steps_keep_sound();
    snapshots_serve();
    jobs_keep_tables();
    match add_all(alloc, state, stats, more) {
        Ok(()) => drain(alloc, state, stats, bound),
        Err(refused) => Err(Stopped::NoMemory(refused)),
    }
}
