//! Other observers of a table, before a log of another manifest begins with it: some of those that it has, in any order, and
//! then others.
ghost use Rattle.std.specs.Prelude.{◌≡◌, ◌≤◌, ◌<◌, ◌+◌, ◌++◌, ℕ, List, length, IfOk, IfErr, OnOk};
ghost use Rattle.pb_base.specs.Batch.{Writes};
ghost use Rattle.pb_base.specs.declared.limits.TheConstants.{MAX_OBSERVERS};
ghost use Rattle.pb_steps.specs.Readings.{last_timestamp};
ghost use Rattle.pb_steps.specs.State.{opening};
ghost use Rattle.pb_generations.specs.Chosen.{AreChosen};
ghost use Rattle.pb_keeper.specs.Keeps.{IsChosenOf, IsFirstTable, KeepsFrom};
ghost use Rattle.pb_keeper.specs.Stats.{kept_table, KeptTable};
ghost use Rattle.pb_accepted.specs.Observers.{ObserverOf};
ghost use Rattle.pb_keeper.specs.Choosing.{IsOneOf};
ghost use Rattle.pb_keep.specs.Changed.{HasOtherObservers, SomeLineWaits, WhyNotChanged};

use crate::compact::SnapshotFault;
use crate::keeper::Keeper;
use pb_accepted::Observer;
use pb_answers::entries_of;
use pb_keeper::{ObserverStats, catching_up_bound, observe_also};
use pb_snapshots::{choose_observers, chosen_are_accepted, chosen_begin};
use pb_state::State;
use pb_store::Tablet;
use sqlite_disk::Disk;
use std::alloc::Global;
use std::mem;

impl<T: Tablet, D: Disk + Drop> Keeper<T, D> {
    // Begins this state, which is as opened with the observers at these places, with what the table has of them. Returns what
    // their runs did.
    fn choose_into(
        &self,
        alloc: Global,
        state: &mut State<T>,
        places: &[usize],
    ) -> Result<Vec<ObserverStats>, SnapshotFault>
        requires opened { state.old ≡ opening state.old.observers 1 0 }
        requires chosen { AreChosen places.now self.now.state.observers state.old.observers }
        requires few { length places.now ≤ MAX_OBSERVERS }
        ensures room { OnOk result (self.now.state.clock < last_timestamp) }
        ensures observers { OnOk result (state.new.observers ≡ state.old.observers) }
        ensures chosen { (limit : ℕ) (past changes : List Writes) (first : KeptTable)
            → IsFirstTable past first
            → KeepsFrom limit first changes (kept_table self.now.state self.now.stats.items)
            → IfOk result (λ stats. IsChosenOf places.now state.old.observers
            (kept_table self.now.state self.now.stats.items)
            (kept_table state.new stats.items)) }
        ensures cause { (limit : ℕ) (past changes : List Writes) (first : KeptTable)
            → IsFirstTable past first
            → KeepsFrom limit first changes (kept_table self.now.state self.now.stats.items)
            → IfErr result (WhyNotChanged self.now.waiting.items.items self.now.state
            self.now.state) }
    {
        // For the proof: what is chosen of a table that keeps changes begins another one, and no version of it is refused.
        chosen_begin();
        chosen_are_accepted();
        let snapshot = self.snapshot(alloc)?;
        let chosen = choose_observers(alloc, &snapshot, places)?;
        state.carry_over(chosen.clock, &chosen.cells)?;
        state.mark_behind()?;
        Ok(chosen.stats)
    }

    /// Goes on with the observers at these places, which keep what they have acknowledged, and then with others, and makes passes
    /// until these have handled all that was ever written to their columns, or so many passes or runs as may be made. Returns how
    /// many runs were committed in these passes, by any observer. Whether a mark is left isn't returned. What is left to do where the
    /// table isn't quiet is left to do still, but for observers that go. What these have acknowledged isn't kept.
    ///
    /// The state is empty, as opened with the observers that stay. It takes the place of the keeper's, which is closed. If the
    /// call fails before that, the given state is closed instead.
    ///
    /// The keeper's own log isn't of such a table. So only another change of observers, `snapshot_into` a log of the new manifest,
    /// and `close` may follow; and where it fails otherwise than as `LinesWait`, `close` alone.
    pub fn change_observers(
        &mut self,
        alloc: Global,
        mut state: State<T>,
        places: &[usize],
        more: Vec<Observer>,
    ) -> Result<u64, SnapshotFault>
        requires opened { state ≡ opening state.observers 1 0 }
        requires chosen { AreChosen places.now self.old.state.observers state.observers }
        // One that the table has stays, or goes: it doesn't come as a new one.
        requires new { (o : ObserverOf) → IsOneOf more.items o
            → IsOneOf self.old.state.observers o → ⊥ }
        requires few { length state.observers + length more.items ≤ MAX_OBSERVERS }
        ensures observers { OnOk result
            (self.new.state.observers ≡ state.observers ++ more.items) }
        // The runs are those of the drain by which the others caught up.
        ensures changed { (limit : ℕ) (past changes : List Writes) (first : KeptTable)
            → IsFirstTable past first
            → KeepsFrom limit first changes (kept_table self.old.state self.old.stats.items)
            → IfOk result (HasOtherObservers places.now state.observers more.items
            (kept_table self.old.state self.old.stats.items)
            (kept_table self.new.state self.new.stats.items)) }
        // A table that keeps changes is a generation's beginning now, after all of them.
        ensures begins { (limit : ℕ) (past changes : List Writes) (first : KeptTable)
            → IsFirstTable past first
            → KeepsFrom limit first changes (kept_table self.old.state self.old.stats.items)
            → OnOk result (IsFirstTable (past ++ changes)
            (kept_table self.new.state self.new.stats.items)) }
        // Nothing else is touched, and nothing at all where a line waits.
        ensures log { self.new.log ≡ self.old.log }
        ensures waiting { self.new.waiting ≡ self.old.waiting }
        ensures since { self.new.since ≡ self.old.since }
        ensures same { IfErr result (λ e. SomeLineWaits e → self.new ≡ self.old) }
        // A fault has its cause.
        ensures cause { (limit : ℕ) (past changes : List Writes) (first : KeptTable)
            → IsFirstTable past first
            → KeepsFrom limit first changes (kept_table self.old.state self.old.stats.items)
            → IfErr result (WhyNotChanged self.old.waiting.items.items self.old.state
            self.new.state) }
    {
        match self.choose_into(alloc, &mut state, places) {
            Ok(stats) => {
                mem::replace(&mut self.state, state).close();
                self.stats = stats;
            }
            Err(fault) => {
                state.close();
                return Err(fault);
            }
        }
        let entries = entries_of(alloc, &self.state)?;
        let bound = catching_up_bound(entries, self.state.observers().len() + more.len());
        let drained = observe_also(alloc, &mut self.state, &mut self.stats, more, bound)?;
        Ok(drained.runs)
    }
}
