//! The cells that a program writes, in order of their first write.
ghost use Rattle.std.specs.Prelude.{◌≡◌, ◌<◌, ◌≤◌, ◌+◌, length, vec_capacity};
ghost use Rattle.pb_isa.specs.Meaning.{kept_writes};
ghost use Rattle.pb_isa.specs.Machine.{add_write, write_result};
ghost use Rattle.pb_vm.specs.Places.{place_in};

use pb_base::{Cell, Content, MAX_CELLS};

// The place of a cell among those written; their number where it isn't one.
fn place_in(writes: &[(Cell, Content)], cell: &Cell) -> usize
    ensures place { result ≡ place_in cell.now writes.now }
    ensures most { result ≤ length writes.now }
{
    match writes {
        [] => 0,
        [first, rest @ ..] => {
            if *cell == first.0 {
                0
            } else {
                place_in(rest, cell) + 1
            }
        }
    }
}

/// The writes that stand after an end with this result: those made where it is 0, else none, so that an observer can
/// give up after it has written.
pub fn kept_writes(end: u64, writes: Vec<(Cell, Content)>) -> Vec<(Cell, Content)>
    ensures { result.items ≡ kept_writes end writes.items }
{
    let mut writes = writes;
    if end != 0 {
        writes.clear();
    }
    writes
}

#[tactic(auto, using(crate::proofs::Replacing::is_there, crate::proofs::Replacing::is_absent, crate::proofs::Replacing::replaced_at_place, pb_sound::proofs::RunWrites::length_replaced))]
/// Writes to a cell, which keeps its place where it was written before. It returns 0, or 3 for a
/// 17th cell, which is not taken.
pub fn write(writes: &mut Vec<(Cell, Content)>, cell: Cell, content: Content) -> u64
    requires few { length writes.old.items ≤ MAX_CELLS }
    requires room { length writes.old.items < MAX_CELLS
        → length writes.old.items < vec_capacity writes.old }
    ensures writes { writes.new.items ≡ add_write cell content writes.old.items }
    ensures result { result ≡ write_result cell writes.old.items }
    ensures few { length writes.new.items ≤ MAX_CELLS }
    ensures one { length writes.new.items ≤ length writes.old.items + 1 }
    ensures room { vec_capacity writes.old ≤ vec_capacity writes.new }
{
    let place = place_in(writes, &cell);
    let written = (cell, content);
    if place < writes.len() {
        writes[place] = written;
        return 0;
    }
    if writes.len() == MAX_CELLS {
        return 3;
    }
    // There is room: as much as the program has writes and deletions, since a run comes to each once at most.
    writes.push_reserved(written);
    0
}
