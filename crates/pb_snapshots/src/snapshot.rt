//! A snapshot of a table.
use pb_base::{Cell, Revision, Ts};
use pb_keeper::ObserverStats;

/// What a table holds at its clock, and what the runs of its observers did.
#[derive(Drop)]
pub struct Snapshot {
    /// The last timestamp that was given out.
    pub clock: Ts,
    /// What the runs of each observer did, in the order of the manifest.
    pub stats: Vec<ObserverStats>,
    /// The versions of the cells.
    pub cells: Vec<(Cell, Revision)>,
}
