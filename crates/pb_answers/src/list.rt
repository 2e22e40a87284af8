//! The answer to `list`: the report of a table, and a last line.
ghost use Rattle.std.specs.Prelude.{◌≡◌, ◌∷◌, [], IfOk, OnOk, List, Some, string_bytes};
ghost use Rattle.std.specs.FinMap as map;
ghost use Rattle.pb_store.specs.declared.slot.Item.{Item};
ghost use Rattle.pb_store.specs.declared.slot.Slot.{Slot};
ghost use Rattle.pb_keeper.specs.Stats.{kept_table};
ghost use Rattle.pb_answers.specs.Lists.{IsListAnswer};
ghost use Rattle.pb_answers.specs.Records.{HasNewestUpTo, is_up_to};

use crate::quiet::{locks_of, marks_of};
use crate::records::put_in;
use crate::tallies::tallies_of;
use pb_base::{Cell, NoMemory, Ts};
use pb_keeper::ObserverStats;
use pb_script::{Newest, Put, note, report_of};
use pb_state::State;
use pb_store::{Item, Slot, Table, Tablet};
use std::alloc::Global;
use std::collections::BTreeMap;

// Whether a write is one of the snapshot at a timestamp.
fn is_up_to(put: &Put, last: Ts) -> bool
    ensures { result ≡ is_up_to last.0 put.now }
{
    put.commit.0 <= last.0
}

// Notes the write that an entry records, if the snapshot has it.
fn note_newest<T: Tablet>(
    newest: &mut BTreeMap<Cell, Newest>,
    table: &Table<T>,
    last: Ts,
    slot: &Slot,
    item: &Item,
) -> Result<(), NoMemory>
    ensures { OnOk result (map.get table.now.contents.entries slot.now ≡ Some item.now
        → (rest : List (Slot × Item))
        → HasNewestUpTo table.now.contents.entries last.0 ((slot.now, item.now) ∷ rest) newest.old
        → HasNewestUpTo table.now.contents.entries last.0 rest newest.new) }
{
    let Some(put) = put_in(table, slot, item) else {
        return Ok(());
    };
    if !is_up_to(&put, last) {
        return Ok(());
    }
    note(newest, &put)?;
    Ok(())
}

// What the snapshot at a timestamp has of each data cell, in one walk over the entries.
fn newest_cells<T: Tablet>(
    alloc: Global,
    table: &Table<T>,
    last: Ts,
) -> Result<BTreeMap<Cell, Newest>, NoMemory>
    ensures { IfOk result (HasNewestUpTo table.now.contents.entries last.0 []) }
{
    let mut newest = BTreeMap::new(alloc);
    let mut after = None;
    while let Some((slot, item)) = table.next_entry(after) {
        note_newest(&mut newest, table, last, &slot, &item)?;
        after = Some(slot);
    }
    Ok(newest)
}

/// The answer to `list`: the report of the table, and `end`. A cell's line is of what the snapshot at the table's clock has
/// there, and an observer's of how many of its runs are committed. Those the caller gives, as for `stats`: a table that was
/// carried over has the acknowledgments of some of them alone.
pub fn answer_list<T: Tablet>(
    alloc: Global,
    state: &State<T>,
    stats: &[ObserverStats],
) -> Result<String, NoMemory>
    ensures { IfOk result
        (λ s. IsListAnswer (kept_table state.now stats.now) (string_bytes s)) }
{
    let newest = newest_cells(alloc, state.table(), state.clock())?;
    let tallies = tallies_of(alloc, state, stats)?;
    let marks = marks_of(alloc, state)?;
    let locks = locks_of(alloc, state)?;
    let mut text = report_of(alloc, &newest, tallies.as_slice(), marks, locks)?;
    text.push_str("end\n")?;
    Ok(text)
}
