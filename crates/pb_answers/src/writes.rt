//! The answer to `since`: the committed writes above a commit, in the order of their commits.
ghost use Rattle.std.specs.Prelude.{◌≡◌, ◌∷◌, IfOk, OnOk, List, Some, string_bytes};
ghost use Rattle.std.specs.List.{flat_map};
ghost use Rattle.std.specs.FinMap as map;
ghost use Rattle.pb_store.specs.declared.slot.Item.{Item};
ghost use Rattle.pb_store.specs.declared.slot.Slot.{Slot};
ghost use Rattle.pb_answers.specs.Records.{HasWritesSince, is_since};
ghost use Rattle.pb_answers.specs.Writes.{AreWritesSince, IsWritesAnswer, since_line};

use crate::records::put_in;
use pb_base::{Cell, Content, NoMemory, Ts};
use pb_script::{Newest, Put, add_cell_line};
use pb_state::State;
use pb_store::{Item, Slot, Table, Tablet};
use std::alloc::{AllocError, Global};
use std::collections::BTreeMap;

// Whether a write is one of a data cell above this commit.
fn is_since(put: &Put, above: Ts) -> bool
    ensures { result ≡ is_since above.0 put.now }
{
    above.0 < put.commit.0 && matches!(put.cell, Cell::Data(..))
}

// Notes the write that an entry records, if it is one of a data cell above this commit.
fn note_write<T: Tablet>(
    writes: &mut BTreeMap<(Ts, Cell), Content>,
    table: &Table<T>,
    above: Ts,
    slot: &Slot,
    item: &Item,
) -> Result<(), NoMemory>
    ensures { OnOk result (map.get table.now.contents.entries slot.now ≡ Some item.now
        → (rest : List (Slot × Item))
        → HasWritesSince table.now.contents.entries above.0 ((slot.now, item.now) ∷ rest) writes.old
        → HasWritesSince table.now.contents.entries above.0 rest writes.new) }
{
    let Some(put) = put_in(table, slot, item) else {
        return Ok(());
    };
    if !is_since(&put, above) {
        return Ok(());
    }
    writes.insert((put.commit, put.cell), put.content)?;
    Ok(())
}

// The committed writes of data cells above a commit, kept by commits and cells, so that the lines come out in that order.
fn writes_since<T: Tablet>(
    alloc: Global,
    table: &Table<T>,
    above: Ts,
) -> Result<BTreeMap<(Ts, Cell), Content>, NoMemory>
    ensures { IfOk result (λ m. AreWritesSince table.now.contents.entries above.0 m.entries) }
{
    let mut writes = BTreeMap::new(alloc);
    let mut after = None;
    while let Some((slot, item)) = table.next_entry(after) {
        note_write(&mut writes, table, above, &slot, &item)?;
        after = Some(slot);
    }
    Ok(writes)
}

fn write_lines(alloc: Global, writes: &BTreeMap<(Ts, Cell), Content>) -> Result<String, AllocError>
    ensures { IfOk result (λ s. string_bytes s ≡ flat_map since_line writes.now.entries) }
{
    let mut text = String::new(alloc);
    for (key, content) in writes {
        let newest = Newest {
            commit: key.0,
            content: *content,
        };
        add_cell_line(&mut text, &key.1, &newest)?;
    }
    Ok(text)
}

/// The answer to `since`: a line for each committed write of a data cell with a commit above this one, in the order of
/// commits, and of cells within one commit, and `end`.
pub fn answer_since<T: Tablet>(
    alloc: Global,
    state: &State<T>,
    above: Ts,
) -> Result<String, NoMemory>
    ensures { IfOk result (λ s. IsWritesAnswer state.now above.0 (string_bytes s)) }
{
    let writes = writes_since(alloc, state.table(), above)?;
    let mut text = write_lines(alloc, &writes)?;
    text.push_str("end\n")?;
    Ok(text)
}
