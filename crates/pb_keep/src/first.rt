//! What a table begins with: nothing, or the snapshot that its log begins with.
ghost use Rattle.std.specs.Prelude.{◌≡◌, ◌∷◌, [], true, map, IfOk, IfErr, OnOk};
ghost use Rattle.pb_keeper.specs.Keeps.{opened_table};
ghost use Rattle.pb_keeper.specs.Stats.{kept_table};
ghost use Rattle.pb_keep.specs.Causes.{IsOfFirst};
ghost use Rattle.pb_keep.specs.Kept.{begins_as_snapshot, IsBegunWith};

use crate::fault::KeepFault;
use pb_base::Ts;
use pb_keeper::ObserverStats;
use pb_snapshots::{read_snapshot, records_are_of_one_snapshot};
use pb_state::State;
use pb_store::Tablet;
use std::alloc::Global;

// The first byte of a snapshot's record. No script begins so, since it is UTF-8.
const MARK: u8 = 0xff;

// Whether the first of the records is a snapshot's.
pub(crate) fn has_snapshot(records: &[Vec<u8>]) -> bool
    ensures { result ≡ begins_as_snapshot (map (λ v. v.items) records.now) }
{
    match records.first() {
        Some(record) => record.first() == Some(&MARK),
        None => false,
    }
}

// The table as opened begins with the snapshot that is written here. Returns its clock.
fn begin_with<T: Tablet>(
    alloc: Global,
    state: &mut State<T>,
    stats: &mut Vec<ObserverStats>,
    record: &[u8],
) -> Result<Ts, KeepFault>
    requires opened { kept_table state.old stats.old.items ≡ opened_table state.old.observers }
    requires begins_so { begins_as_snapshot («record».now ∷ []) ≡ true }
    ensures begun { IfOk result (λ t. IsBegunWith state.old.observers («record».now ∷ []) []
        t.0 (kept_table state.new stats.new.items)) }
    ensures observers { OnOk result (state.new.observers ≡ state.old.observers) }
    ensures why { IfErr result (IsOfFirst state.old.observers («record».now ∷ [])) }
{
    // For the proof: no other snapshot has this record.
    records_are_of_one_snapshot();
    let Some(snapshot) = read_snapshot(alloc, record)? else {
        return Err(KeepFault::Snapshot);
    };
    if snapshot.stats.len() != stats.len() {
        return Err(KeepFault::Snapshot);
    }
    state.carry_over(snapshot.clock, &snapshot.cells)?;
    state.mark_behind()?;
    let clock = snapshot.clock;
    *stats = snapshot.stats;
    Ok(clock)
}

/// Takes the snapshot from the records, if they begin with one, and begins the table as opened with it. Returns the commit above
/// which all writes are there.
pub(crate) fn begin<T: Tablet>(
    alloc: Global,
    state: &mut State<T>,
    stats: &mut Vec<ObserverStats>,
    records: &mut Vec<Vec<u8>>,
) -> Result<Ts, KeepFault>
    requires opened { kept_table state.old stats.old.items ≡ opened_table state.old.observers }
    ensures begun { IfOk result (λ t. IsBegunWith state.old.observers
        (map (λ v. v.items) records.old.items) (map (λ v. v.items) records.new.items)
        t.0 (kept_table state.new stats.new.items)) }
    ensures observers { OnOk result (state.new.observers ≡ state.old.observers) }
    ensures why { IfErr result
        (IsOfFirst state.old.observers (map (λ v. v.items) records.old.items)) }
{
    if !has_snapshot(records) {
        return Ok(Ts(0));
    }
    let record = records.remove(0);
    begin_with(alloc, state, stats, &record)
}
