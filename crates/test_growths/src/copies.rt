//! Batches, steps and declarations.
use crate::refusals::Refusals;
use crate::steps::three_cells;
use pb_base::{Batch, Ts};
use pb_steps::{Declaration, Declared, Step};
use std::alloc::Global;
use test_fixtures::Unready;

/// `Batch::copy`.
pub fn batch_copies(alloc: Global, refusals: &mut Refusals) -> Result<bool, Unready> {
    let batch = three_cells(alloc)?;
    let copy = match batch.copy() {
        Ok(copy) => copy,
        Err(_) => {
            refusals.note("Batch::copy");
            match batch.copy() {
                Ok(copy) => copy,
                Err(_) => return Ok(false),
            }
        }
    };
    Ok(batch.is_same(&copy))
}

/// `Step::copy`, which shares what is declared.
pub fn step_copies(alloc: Global, refusals: &mut Refusals) -> Result<bool, Unready> {
    let what = Declaration::new(alloc, Declared::Script(three_cells(alloc)?))?;
    let step = Step::Declare(Ts(1), what);
    let copy = match step.copy() {
        Ok(copy) => copy,
        Err(_) => {
            refusals.note("Step::copy");
            match step.copy() {
                Ok(copy) => copy,
                Err(_) => return Ok(false),
            }
        }
    };
    Ok(step.is_same(&copy))
}

/// Whether `Declaration::new` declares this, which is the same as the other; refused once, it hands the same back.
pub fn is_declared(
    alloc: Global,
    declared: Declared,
    same: &Declared,
    refusals: &mut Refusals,
) -> bool {
    let declared = match Declaration::new(alloc, declared) {
        Ok(declaration) => return declaration.get().is_same(same),
        Err(failed) => failed.value,
    };
    refusals.note("Declaration::new");
    if !declared.is_same(same) {
        return false;
    }
    match Declaration::new(alloc, declared) {
        Ok(declaration) => declaration.get().is_same(same),
        Err(_) => false,
    }
}

fn script(batch: Batch) -> Declared {
    Declared::Script(batch)
}

/// `Declaration::new` of a batch.
pub fn batches_are_declared(alloc: Global, refusals: &mut Refusals) -> Result<bool, Unready> {
    let batch = script(three_cells(alloc)?);
    let same = script(three_cells(alloc)?);
    Ok(is_declared(alloc, batch, &same, refusals))
}
