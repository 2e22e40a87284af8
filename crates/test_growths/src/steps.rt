//! Steps of each kind, and what they declare.
use pb_base::{Batch, Cell, Column, Content, NoMemory, Row, Ts};
use pb_steps::{Declaration, Declared, Step, Work};
use std::alloc::Global;
use test_fixtures::Unready;

/// Column 0.
pub fn column() -> Result<Column, NoSuchNumber> {
    column_of(0)
}

/// There is no column, or no observer, of a number. It is a type of its own, since no proof is made for what takes a `Column`
/// beside the words of an `Unready`.
#[derive(Drop)]
pub struct NoSuchNumber;

impl From<NoSuchNumber> for Unready {
    fn from(_e: NoSuchNumber) -> Unready {
        Unready::Other("there is no such number")
    }
}

/// The column of this number.
pub fn column_of(number: u8) -> Result<Column, NoSuchNumber> {
    match Column::new(number) {
        Some(column) => Ok(column),
        None => Err(NoSuchNumber),
    }
}

// The row of the cell in this column, which is in the second tablet for column 1.
fn row_in(number: u8) -> Row {
    if number == 1 { Row(1007) } else { Row(7) }
}

/// The cell in this column.
pub fn cell_of(number: u8) -> Result<Cell, NoSuchNumber> {
    Ok(Cell::Data(row_in(number), column_of(number)?))
}

// A batch of the cells in the first columns.
fn batch_of(alloc: Global, count: u8) -> Result<Batch, Unready> {
    let mut writes = Vec::new(alloc);
    for number in 0..count {
        writes.push((row_in(number), column_of(number)?, Content::Deleted))?;
    }
    match Batch::new(writes) {
        Ok(batch) => Ok(batch),
        Err(_) => Err(Unready::Other("the cells make no batch")),
    }
}

/// A batch of three cells, in both tablets.
pub fn three_cells(alloc: Global) -> Result<Batch, Unready> {
    batch_of(alloc, 3)
}

/// A batch of one cell.
pub fn batch(alloc: Global) -> Result<Batch, Unready> {
    batch_of(alloc, 1)
}

/// The declaration of a batch.
pub fn declares(alloc: Global, start: Ts, batch: Batch) -> Result<Step, NoMemory> {
    let what = Declaration::new(alloc, Declared::Script(batch))?;
    Ok(Step::Declare(start, what))
}

/// A step of each kind and more: a transaction of three cells, one of which is cleared by others once it is committed, one of two
/// cells that is undone, and one that reads three times, which has room for two reads from the first on; and the first mark, and
/// a sweep.
pub fn steps(alloc: Global) -> Result<Vec<Step>, Unready> {
    let (one, three, four) = (Ts(1), Ts(3), Ts(4));
    let (first, second, third) = (cell_of(0)?, cell_of(1)?, cell_of(2)?);
    let writes_three = declares(alloc, one, three_cells(alloc)?)?;
    let writes_two = declares(alloc, three, batch_of(alloc, 2)?)?;
    Ok(vec![in alloc;
        Step::Begin(Work::Script),
        writes_three,
        Step::Prewrite(one, first),
        Step::Prewrite(one, second),
        Step::Prewrite(one, third),
        Step::Stamp(one),
        Step::CommitPrimary(one),
        Step::CommitSecondary(one, second),
        Step::Clear(third),
        Step::Begin(Work::Script),
        writes_two,
        Step::Prewrite(three, first),
        Step::Prewrite(three, second),
        Step::Settle(first),
        Step::Clear(second),
        Step::Begin(Work::Script),
        Step::Read(four, second),
        Step::Read(four, third),
        Step::ReadAt(four, second, Ts(2)),
        Step::NextMark(None),
        Step::Sweep(first),
    ]?)
}

/// The kind of a step.
pub fn kind_of(step: &Step) -> &'static str {
    match step {
        Step::Begin(_) => "Begin",
        Step::Read(..) => "Read",
        Step::ReadAt(..) => "ReadAt",
        Step::Declare(..) => "Declare",
        Step::Prewrite(..) => "Prewrite",
        Step::Stamp(_) => "Stamp",
        Step::CommitPrimary(_) => "CommitPrimary",
        Step::CommitSecondary(..) => "CommitSecondary",
        Step::Settle(_) => "Settle",
        Step::Clear(_) => "Clear",
        Step::NextMark(_) => "NextMark",
        Step::Sweep(_) => "Sweep",
    }
}
