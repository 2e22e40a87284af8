//! The write that an entry records.
ghost use Rattle.std.specs.Prelude.{◌≡◌};
ghost use Rattle.pb_steps.specs.Readings.{data_at};
ghost use Rattle.pb_answers.specs.Records.{put_in};

use pb_base::{Cell, Content, Ts};
use pb_script::Put;
use pb_store::{Item, Slot, Sort, Table, Tablet};

/// What the transaction of this start wrote to the cell.
pub(crate) fn content_at<T: Tablet>(table: &Table<T>, cell: &Cell, start: Ts) -> Option<Content>
    ensures { result ≡ data_at table.now.contents.entries cell.now start.0 }
{
    let slot = Slot {
        cell: *cell,
        sort: Sort::Data,
        ts: start,
    };
    match table.get(slot) {
        Some(Item::Data(content)) => Some(content),
        _ => None,
    }
}

/// The write that an entry records, if it is a write record with its data.
pub(crate) fn put_in<T: Tablet>(table: &Table<T>, slot: &Slot, item: &Item) -> Option<Put>
    ensures { result ≡ put_in table.now.contents.entries slot.now item.now }
{
    let Item::Write(start) = item else {
        return None;
    };
    if slot.sort != Sort::Write {
        return None;
    }
    let content = content_at(table, &slot.cell, *start)?;
    Some(Put {
        cell: slot.cell,
        commit: slot.ts,
        content,
    })
}
