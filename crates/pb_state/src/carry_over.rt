//! A state begins with versions of cells, as a generation does: each is looked at, and put.
ghost use Rattle.std.specs.Prelude.{◌≡◌, ◌^◌, ◌<◌, ℕ, true, false, Bool, take, slice_get, OnOk, OnErr, IfErr, MatchBool, length, ◌-◌};
ghost use Rattle.pb_store.specs.Contents.{Contents, AreEdits, after_edits};
ghost use Rattle.pb_steps.specs.State.{opening};
ghost use Rattle.pb_history.specs.History.{Has};
ghost use Rattle.pb_history.specs.Sound.{IsSoundTable};
ghost use Rattle.pb_state.specs.CarriedOver.{AreInOrder, AreVersionsBy, IsAmiss, IsCarriedOver, IsLatest, IsOrBeganLast, MayFollow, WhyNotCarried};
ghost use Rattle.pb_state.specs.CarriedOver.{comes_before, has_its_observer, is_content_of, is_of_column, is_stamp_of, put_version, state_with_version};

use crate::carry_fault::CarryFault;
use crate::parts::Parts;
use crate::readings::slot_of;
use crate::transaction::Transaction;
use pb_accepted::Observer;
use pb_base::{Cell, Column, Content, NoMemory, ObserverNo, Revision, Ts};
use pb_store::{Edit, Item, Sort, Table, Tablet};

// Puts data and write record of a version on a cell. Data first, since they stand first: a tablet then searches once.
fn version_edits(cell: &Cell, version: &Revision) -> [Edit; 2]
    ensures edits { AreEdits result }
    ensures put { (c : Contents)
        → after_edits result c
        ≡ record c { entries = put_version c.entries cell.now version.now } }
{
    let data = slot_of(cell, Sort::Data, version.start);
    let record = slot_of(cell, Sort::Write, version.commit);
    [
        Edit::Put(data, Item::Data(version.content)),
        Edit::Put(record, Item::Write(version.start)),
    ]
}

// Whether a version comes before another: on an earlier cell of the same transaction, or by one that was committed
// before the other began.
fn comes_before(earlier: &(Cell, Revision), later: &(Cell, Revision)) -> bool
    ensures { result ≡ comes_before earlier.now later.now }
{
    let is_of_same = earlier.1.start.0 == later.1.start.0 && earlier.1.commit.0 == later.1.commit.0;
    (is_of_same && earlier.0.cmp(&later.0).is_lt()) || earlier.1.commit.0 < later.1.start.0
}

// Whether a version comes after those before it, of which the last is the latest.
fn comes_last(before: &[(Cell, Revision)], next: &(Cell, Revision)) -> bool
    requires latest { (c : Cell × Revision)
        → slice_get before.now (length before.now - 1) ≡ Some c → IsLatest before.now c }
    requires above { (c : Cell × Revision) → Has before.now c → c.1.start.0 < c.1.commit.0 }
    ensures { MatchBool result
        ((c : Cell × Revision) → Has before.now c → comes_before c next.now ≡ true)
        ((c : Cell × Revision) × Has before.now c × (comes_before c next.now ≡ false)) }
{
    match before {
        [] => true,
        [.., latest] => comes_before(latest, next),
    }
}

fn is_stamp_of(start: Ts, content: &Content) -> bool
    ensures { result ≡ is_stamp_of start content.now }
{
    match content {
        Content::Stamp(stamp) => stamp.0 == start.0,
        _ => false,
    }
}

/// Whether a version is one of a cell of this kind: no stamp in a data cell, and in an acknowledgment that of its own start.
pub fn is_content_of(cell: &Cell, version: &Revision) -> bool
    ensures { result ≡ is_content_of cell.now version.now }
{
    match cell {
        Cell::Data(_, _) => match version.content {
            Content::Value(_) => true,
            Content::Deleted => true,
            Content::Stamp(_) => false,
        },
        Cell::Ack(_, _, _) => is_stamp_of(version.start, &version.content),
    }
}

// Whether there is the observer whose acknowledgment a cell is, with its column.
fn has_its_observer(observers: &[Observer], cell: &Cell) -> bool
    ensures { result ≡ has_its_observer observers.now cell.now }
{
    match cell {
        Cell::Data(_, _) => true,
        Cell::Ack(observer, _, column) => match observers.get(observer.number() as usize) {
            Some(observer) => observer.column == *column,
            None => false,
        },
    }
}

// Why a version can't come next after those before it, by the first reason that applies.
fn admit_version(
    observers: &[Observer],
    last: Ts,
    before: &[(Cell, Revision)],
    next: &(Cell, Revision),
) -> Result<(), CarryFault>
    requires ordered { AreVersionsBy last.0 before.now }
    ensures ok { OnOk result (MayFollow observers.now last.0 before.now next.now) }
    ensures err { IfErr result (IsAmiss observers.now last.0 before.now next.now) }
{
    let (cell, version) = next;
    if version.commit.0 <= version.start.0 {
        return Err(CarryFault::NotAboveStart);
    }
    if version.commit.0 > last.0 {
        return Err(CarryFault::AboveLast);
    }
    if !comes_last(before, next) {
        return Err(CarryFault::OutOfOrder);
    }
    if !is_content_of(cell, version) {
        return Err(CarryFault::NotItsContent);
    }
    if !has_its_observer(observers, cell) {
        return Err(CarryFault::NoItsObserver);
    }
    Ok(())
}

impl<T: Tablet> Parts<T> {
    // Puts a version, and adds it to what is left of its transaction; or neither.
    fn put_version(&mut self, cell: &Cell, version: &Revision) -> Result<(), NoMemory>
        requires { IsOrBeganLast self.old.transactions version.now.start.0 }
        ensures ok { OnOk result (self.new ≡ state_with_version self.old cell.now version.now) }
        ensures err { OnErr result (self.new ≡ self.old) }
    {
        let edits = version_edits(cell, version);
        match self.transactions.find(version.start) {
            Some((at, _)) => {
                let left = self.transactions.at_mut(at);
                left.add_cell(self.alloc, &mut self.table, cell, version.content, &edits)
            }
            None => {
                let left = Transaction::left(
                    self.alloc,
                    self.seats,
                    version.commit,
                    cell,
                    version.content,
                )?;
                self.transactions
                    .add_with(version.start, left, &mut self.table, &edits)
            }
        }
    }

    pub(crate) fn carry_over(
        &mut self,
        last: Ts,
        cells: &[(Cell, Revision)],
    ) -> Result<(), CarryFault>
        requires opened { self.old ≡ opening self.old.observers self.old.seats 0 }
        ensures ok { OnOk result
            (IsCarriedOver self.old.observers self.old.seats last.0 cells.now self.new) }
        ensures ordered { OnOk result (AreInOrder self.old.observers last.0 cells.now) }
        ensures err { IfErr result (λ e. (n : ℕ)
            × IsCarriedOver self.old.observers self.old.seats last.0 (take n cells.now) self.new
            × WhyNotCarried self.old.observers last.0 cells.now n e) }
        ensures sound { IsSoundTable self.new }
    {
        self.clock = last.0;
        for place in 0..cells.len() {
            let next = &cells[place];
            admit_version(&self.observers, last, &cells[..place], next)?;
            self.put_version(&next.0, &next.1)?;
        }
        Ok(())
    }
}
