//! What committed transactions leave in a plain map of cells.
use crate::fault::Fault;
use crate::history::{Commits, declared_at};
use pb_base::{Cell, Content};
use pb_history::KeptEntry;
use pb_steps::Declared;
use std::alloc::{AllocError, Global};
use std::collections::BTreeMap;

/// The last that was committed at a cell.
#[derive(Clone, Copy, Drop)]
pub struct Version {
    pub commit: u64,
    pub content: Content,
}

/// Cells with the last that was committed there.
pub type Cells = BTreeMap<Cell, Version>;

// Puts what a transaction writes in the place of what was there.
fn put_all(cells: &mut Cells, commit: u64, what: &Declared) -> Result<(), AllocError> {
    match what {
        Declared::Script(batch) => {
            for place in 0..batch.len() {
                let (cell, content) = batch.at(place);
                cells.insert(cell, Version { commit, content })?;
            }
        }
        Declared::Run(_, run) => {
            for (cell, content) in run.get().writes() {
                let content = *content;
                cells.insert(*cell, Version { commit, content })?;
            }
        }
    }
    Ok(())
}

/// What the transactions leave, one after another in the order of their commits.
pub fn cells_of(alloc: Global, journal: &[KeptEntry], commits: &Commits) -> Result<Cells, Fault> {
    let mut cells = BTreeMap::new(alloc);
    for (commit, place) in commits {
        let Some(what) = declared_at(journal, *place) else {
            return Err(Fault::History);
        };
        put_all(&mut cells, *commit, what)?;
    }
    Ok(cells)
}
