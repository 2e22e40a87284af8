//! A transaction, with the lists that grow while it goes on.

use crate::cells::Cells;
use crate::room::{append, make_room};
use pb_base::{Cell, Content, NoMemory, Reason, Ts};
use pb_steps::{Answer, Phase, RecordedRead, Work};
use pb_store::{Edit, Table, Tablet};
use std::alloc::Global;
use std::marker::Model;

// How many reads a run makes, if its program asks for nothing: of its cell and of its
// acknowledgment. One that is given what the cell held at the acknowledged timestamp makes a third.
// So many get room at once, so that most lists grow once.
const RUN_READS: usize = 2;

/// A transaction, from its begin on. None is forgotten, since a report asks for the phase of each.
#[derive(Drop)]
pub(crate) struct Transaction {
    seat: u32,
    work: Work,
    phase: Phase,
    reads: Vec<RecordedRead>,
    cells: Cells,
    // Kept beside the phase, since whether the primary comes first is about what was prewritten, and not about the
    // table's locks, which others may clear.
    prewritten: Vec<Cell>,
}

impl Model for Transaction {
    ghost use Rattle.pb_steps.specs.State.{TransactionOf, transaction_code};
    ghost use Rattle.pb_state.specs.Cells.{cells_in};

    ghost Value = { TransactionOf };

    ghost coded = { transaction_code };

    ghost view = { λ t. record { seat = t.seat; work = t.work; phase = t.phase; reads = t.reads.items; declared = cells_in t.cells; prewritten = t.prewritten.items } };

    ghost use Rattle.std.specs.Prelude.{◌≡◌, ◌||◌, true, is_some};
    ghost use Rattle.pb_base.specs.Batch.{primary_in};
    ghost use Rattle.pb_steps.specs.Phases.{is_reading};

    // Past reading it has declared what it writes.
    ghost invariant = { λ t. (is_reading t.phase || is_some (primary_in (cells_in t.cells))) ≡ true };
}

impl Transaction {
    ghost use Rattle.std.specs.Prelude.{◌≡◌, IfOk, OnOk, OnErr, ◌++◌, ◌∷◌, [], MatchOption, Some, is_some, true, false};
    ghost use Rattle.pb_base.specs.Batch.{content_in, primary_in};
    ghost use Rattle.pb_store.specs.Contents.{AreEdits, after_edits};
    ghost use Rattle.pb_steps.specs.State.{new_transaction, is_in};
    ghost use Rattle.pb_state.specs.Cells.{cells_in};
    ghost use Rattle.pb_state.specs.CarriedOver.{left_transaction, with_cell};
    ghost use Rattle.pb_steps.specs.Read.{with_read};
    ghost use Rattle.pb_steps.specs.Stamp.{is_whole};
    ghost use Rattle.pb_steps.specs.Phases.{is_reading, is_stamped};

    pub(crate) fn new(alloc: Global, seat: u32, work: Work) -> Transaction
        ensures { result ≡ new_transaction seat work }
    {
        Transaction {
            seat,
            work,
            phase: Phase::Reading,
            reads: Vec::new(alloc),
            cells: Cells::Nothing,
            prewritten: Vec::new(alloc),
        }
    }

    pub(crate) fn seat(&self) -> u32
        ensures { result ≡ self.now.seat }
    {
        self.seat
    }

    pub(crate) fn work(&self) -> Work
        ensures { result ≡ self.now.work }
    {
        self.work
    }

    /// What it read, in order.
    pub(crate) fn reads(&self) -> &[RecordedRead]
        ensures { result.now ≡ self.now.reads }
    {
        &self.reads
    }

    pub(crate) fn phase(&self) -> Phase
        ensures { result ≡ self.now.phase }
    {
        self.phase
    }

    /// What it declared to write to a cell.
    pub(crate) fn content(&self, cell: Cell) -> Option<Content>
        ensures { result ≡ content_in self.now.declared cell }
    {
        self.cells.content(cell)
    }

    /// The first cell that it declared.
    pub(crate) fn primary(&self) -> Option<Cell>
        ensures first { result ≡ primary_in self.now.declared }
        ensures some { is_reading self.now.phase ≡ false → is_some result ≡ true }
    {
        self.cells.primary()
    }

    pub(crate) fn is_prewritten(&self, cell: &Cell) -> bool
        ensures { result ≡ is_in self.now.prewritten cell.now }
    {
        self.prewritten.contains(cell)
    }

    /// Its commit timestamp and its primary, if it is stamped.
    pub(crate) fn stamp_and_primary(&self) -> Option<(Ts, Cell)>
        ensures { MatchOption result (is_stamped self.now.phase ≡ false)
            (λ s. (self.now.phase ≡ Phase.Stamped s.0)
            × (primary_in self.now.declared ≡ Some s.1)) }
    {
        let Phase::Stamped(commit) = self.phase else {
            return None;
        };
        let primary = self.primary()?;
        Some((commit, primary))
    }

    pub(crate) fn set_phase(&mut self, phase: Phase)
        requires { is_reading self.old.phase ≡ false }
        ensures { self.new ≡ record self.old { phase = phase } }
    {
        self.phase = phase;
    }

    pub(crate) fn declare(&mut self, cells: Cells)
        requires { is_some (primary_in (cells_in cells)) ≡ true }
        ensures { self.new ≡ record self.old { phase = Phase.Declared; declared = cells_in cells } }
    {
        self.phase = Phase::Declared;
        self.cells = cells;
    }

    // Records what a read was answered.
    pub(crate) fn record_read(
        &mut self,
        cell: Cell,
        at: Option<Ts>,
        answer: &Answer,
    ) -> Result<(), NoMemory>
        ensures ok { OnOk result (self.new ≡ with_read self.old cell at answer.now) }
        ensures err { OnErr result (self.new ≡ self.old) }
    {
        make_room(&mut self.reads, RUN_READS)?;
        let read = RecordedRead {
            cell,
            at,
            answer: *answer,
        };
        append(&mut self.reads, read);
        Ok(())
    }

    // Does the edits in the table and adds a prewritten cell, or neither.
    pub(crate) fn prewrite<T: Tablet>(
        &mut self,
        table: &mut Table<T>,
        cell: Cell,
        edits: &[Edit],
    ) -> Result<(), NoMemory>
        requires { AreEdits edits.now }
        ensures ok { OnOk result
            (self.new ≡ record self.old { prewritten = self.old.prewritten ++ cell ∷ [] }) }
        ensures applied { OnOk result (table.new.contents
            ≡ after_edits edits.now table.old.contents) }
        ensures err { OnErr result (self.new ≡ self.old) }
        ensures kept { OnErr result (table.new.contents ≡ table.old.contents) }
    {
        // Room in the list comes before the edits, so that nothing has changed where either is refused.
        make_room(&mut self.prewritten, self.cells.len())?;
        table.apply(edits)?;
        append(&mut self.prewritten, cell);
        Ok(())
    }

    /// What is left of one that an earlier generation committed, with its first cell.
    pub(crate) fn left(
        alloc: Global,
        seat: u32,
        commit: Ts,
        cell: &Cell,
        content: Content,
    ) -> Result<Transaction, NoMemory>
        ensures { IfOk result (λ t. t ≡ left_transaction seat commit cell.now content) }
    {
        let mut list = Vec::new(alloc);
        let mut prewritten = Vec::new(alloc);
        make_room(&mut list, 1)?;
        make_room(&mut prewritten, 1)?;
        append(&mut list, (*cell, content));
        append(&mut prewritten, *cell);
        Ok(Transaction {
            seat,
            work: Work::Script,
            phase: Phase::Committed(commit),
            reads: Vec::new(alloc),
            cells: Cells::Left(list),
            prewritten,
        })
    }

    // Does the edits in the table and adds a cell that was declared and prewritten, or neither.
    pub(crate) fn add_cell<T: Tablet>(
        &mut self,
        alloc: Global,
        table: &mut Table<T>,
        cell: &Cell,
        content: Content,
        edits: &[Edit],
    ) -> Result<(), NoMemory>
        requires { AreEdits edits.now }
        ensures ok { OnOk result (self.new ≡ with_cell self.old cell.now content) }
        ensures applied { OnOk result (table.new.contents
            ≡ after_edits edits.now table.old.contents) }
        ensures err { OnErr result (self.new ≡ self.old) }
        ensures kept { OnErr result (table.new.contents ≡ table.old.contents) }
    {
        // Room in both lists comes before the edits, so that nothing has changed where one is refused.
        make_room(&mut self.prewritten, 1)?;
        self.cells.make_room(alloc)?;
        table.apply(edits)?;
        self.cells.append(*cell, content);
        append(&mut self.prewritten, *cell);
        Ok(())
    }

    /// Whether every cell that it declared is prewritten.
    pub(crate) fn is_whole(&self) -> bool
        ensures { result ≡ is_whole self.now }
    {
        self.cells.are_in(&self.prewritten)
    }
}
