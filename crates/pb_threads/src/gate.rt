//! The gate: what is called before each call of the table, so that a test may hold a worker between two of its steps.
use pb_steps::Step;

/// What is called before each call of the table, with the seat that asks and the step that it asks, while the caller
/// holds no lock. It may wait.
pub trait Gate: Sync {
    fn pass(&self, seat: u32, step: &Step);
}

/// The gate that returns at once.
pub struct Open;

impl Gate for Open {
    fn pass(&self, _seat: u32, _step: &Step) {}
}
