//! What a transaction has declared that it writes, as it is kept: shared with the step and the journal.
ghost use Rattle.std.specs.Prelude.{◌≡◌, IfOk};
ghost use Rattle.std.specs.List.{list_all};
ghost use Rattle.pb_base.specs.Batch.{content_in, primary_in};
ghost use Rattle.pb_steps.specs.State.{is_in};
ghost use Rattle.pb_state.specs.Cells.{run_writes};

use crate::room::{append, make_room};
use pb_base::{Batch, Cell, Content, NoMemory, Ts};
use pb_steps::{Declaration, Declared};
use std::alloc::Global;

/// What a transaction has declared that it writes. Only a run's acknowledgment is kept beside its declaration, since
/// that has what its program writes alone.
#[derive(Drop)]
pub(crate) enum Cells {
    Nothing,
    /// A script's. Of a run it would write nothing, so that nothing has to be known of what it holds.
    Batch(Declaration),
    /// A run's acknowledgment, with its stamp, and what its program writes.
    Run {
        acknowledgment: Cell,
        stamp: Ts,
        what: Declaration,
    },
    /// What is left of a transaction of which a state began with versions, since its declaration is gone.
    Left(Vec<(Cell, Content)>),
}

// What the writes give a cell.
fn content_in(writes: &[(Cell, Content)], cell: &Cell) -> Option<Content>
    ensures { result ≡ content_in writes.now cell.now }
{
    for write in writes {
        if *cell == write.0 {
            return Some(write.1);
        }
    }
    None
}

// Whether every cell of the batch is in the list: in the prewritten ones, of which there are at most 17.
fn has_batch(cells: &[Cell], batch: &Batch) -> bool
    ensures { result ≡ list_all (λ w. is_in cells.now w.0) batch.now }
{
    for place in 0..batch.len() {
        let (cell, _) = batch.at(place);
        if !cells.contains(&cell) {
            return false;
        }
    }
    true
}

// Whether every cell of the writes is in the list.
fn has_writes(cells: &[Cell], writes: &[(Cell, Content)]) -> bool
    ensures { result ≡ list_all (λ w. is_in cells.now w.0) writes.now }
{
    for write in writes {
        if !cells.contains(&write.0) {
            return false;
        }
    }
    true
}

// The first cell that is written.
fn first_cell(writes: &[(Cell, Content)]) -> Option<Cell>
    ensures { result ≡ primary_in writes.now }
{
    match writes.first() {
        Some(write) => Some(write.0),
        None => None,
    }
}

// What a batch writes, in a list.
fn batch_list(alloc: Global, batch: &Batch) -> Result<Vec<(Cell, Content)>, NoMemory>
    ensures { IfOk result (λ list. list.items ≡ batch.now) }
{
    let mut list = Vec::new(alloc);
    for next in 0..batch.len() {
        list.push(batch.at(next))?;
    }
    Ok(list)
}

// What a run's program writes.
fn run_writes(what: &Declared) -> &[(Cell, Content)]
    ensures { result.now ≡ run_writes what.now }
{
    match what {
        Declared::Script(_) => &[],
        Declared::Run(_, run) => run.get().writes(),
    }
}

impl Cells {
    ghost use Rattle.std.specs.Prelude.{◌≡◌, ◌++◌, ◌∷◌, [], length, IfOk, OnOk};
    ghost use Rattle.pb_state.specs.Cells.{cells_in, HasCellRoom};

    /// How many there are.
    pub(crate) fn len(&self) -> usize
        ensures { result ≡ length (cells_in self.now) }
    {
        match self {
            Cells::Nothing => 0,
            Cells::Batch(what) => match what.get() {
                Declared::Script(batch) => batch.len(),
                Declared::Run(_, _) => 0,
            },
            Cells::Run { what, .. } => run_writes(what.get()).len() + 1,
            Cells::Left(list) => list.len(),
        }
    }

    /// The first of them.
    pub(crate) fn primary(&self) -> Option<Cell>
        ensures { result ≡ primary_in (cells_in self.now) }
    {
        match self {
            Cells::Nothing => None,
            Cells::Batch(what) => match what.get() {
                Declared::Script(batch) => Some(batch.primary()),
                Declared::Run(_, _) => None,
            },
            Cells::Run { acknowledgment, .. } => Some(*acknowledgment),
            Cells::Left(list) => first_cell(list),
        }
    }

    /// What is written to a cell.
    pub(crate) fn content(&self, cell: Cell) -> Option<Content>
        ensures { result ≡ content_in (cells_in self.now) cell }
    {
        match self {
            Cells::Nothing => None,
            Cells::Batch(what) => match what.get() {
                Declared::Script(batch) => batch.content(cell),
                Declared::Run(_, _) => None,
            },
            Cells::Run {
                acknowledgment,
                stamp,
                what,
            } => {
                if cell == *acknowledgment {
                    return Some(Content::Stamp(*stamp));
                }
                content_in(run_writes(what.get()), &cell)
            }
            Cells::Left(list) => content_in(list, &cell),
        }
    }

    /// Whether all of them are in the list.
    pub(crate) fn are_in(&self, list: &[Cell]) -> bool
        ensures { result ≡ list_all (λ w. is_in list.now w.0) (cells_in self.now) }
    {
        match self {
            Cells::Nothing => true,
            Cells::Batch(what) => match what.get() {
                Declared::Script(batch) => has_batch(list, batch),
                Declared::Run(_, _) => true,
            },
            Cells::Run {
                acknowledgment,
                what,
                ..
            } => list.contains(acknowledgment) && has_writes(list, run_writes(what.get())),
            Cells::Left(writes) => has_writes(list, writes),
        }
    }

    // All of them in a list.
    fn to_list(&self, alloc: Global) -> Result<Vec<(Cell, Content)>, NoMemory>
        ensures { IfOk result (λ list. list.items ≡ cells_in self.now) }
    {
        match self {
            Cells::Nothing => Ok(Vec::new(alloc)),
            Cells::Batch(what) => match what.get() {
                Declared::Script(batch) => batch_list(alloc, batch),
                Declared::Run(_, _) => Ok(Vec::new(alloc)),
            },
            Cells::Run {
                acknowledgment,
                stamp,
                what,
            } => {
                let mut list = Vec::new(alloc);
                list.push((*acknowledgment, Content::Stamp(*stamp)))?;
                list.extend_from_slice(run_writes(what.get()))?;
                Ok(list)
            }
            Cells::Left(list) => Ok(list.clone()?),
        }
    }

    /// Makes them a list of their own, which those of a transaction that is left are, with room for one more.
    pub(crate) fn make_room(&mut self, alloc: Global) -> Result<(), NoMemory>
        ensures cells { cells_in self.new ≡ cells_in self.old }
        ensures room { OnOk result (HasCellRoom self.new) }
    {
        if let Cells::Left(list) = self {
            return make_room(list, 1);
        }
        let mut list = self.to_list(alloc)?;
        make_room(&mut list, 1)?;
        *self = Cells::Left(list);
        Ok(())
    }

    /// Adds one where there is room.
    pub(crate) fn append(&mut self, cell: Cell, content: Content)
        requires { HasCellRoom self.old }
        ensures { cells_in self.new ≡ cells_in self.old ++ (cell, content) ∷ [] }
    {
        if let Cells::Left(list) = self {
            append(list, (cell, content));
        }
    }
}
