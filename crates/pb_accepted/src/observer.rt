//! Observers, as a table has them: a manifest's, accepted, by their numbers.
use crate::accepted::Accepted;
use pb_base::Column;
use std::marker::Model;
use std::sync::Arc;

/// An observer of a column (OSDI 2010, section 2.4): where a cell of that column changed, its program runs. Its number
/// is its place among the observers of the table.
#[derive(Drop)]
pub struct Observer {
    pub name: String,
    pub column: Column,
    // Shared, since each job of a run holds its observer's program beside the table.
    pub program: Arc<Accepted>,
}

impl Model for Observer {
    ghost use Rattle.pb_accepted.specs.Observers.{ObserverOf, observer_code};
    ghost use Rattle.std.specs.Prelude.{string_bytes};

    ghost Value = { ObserverOf };

    ghost coded = { observer_code };

    ghost view = { λ o. record { name = string_bytes o.name; column = o.column; program = o.program.value } };
}
