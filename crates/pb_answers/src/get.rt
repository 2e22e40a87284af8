//! The answer to `get`.
ghost use Rattle.std.specs.Prelude.{IfOk, string_bytes};
ghost use Rattle.pb_base.specs.declared.cell.Cell.TheVariants.{Data};
ghost use Rattle.pb_answers.specs.Values.{IsValueAnswer};

use crate::lines::value_line;
use crate::newest::newest_of;
use pb_base::{Column, NoMemory, Row};
use pb_state::State;
use pb_store::Tablet;
use std::alloc::Global;

/// The answer to `get`: the line of what the snapshot at the table's clock has of a data cell. It is `value`, `deleted` or
/// `absent`.
pub fn answer_get<T: Tablet>(
    alloc: Global,
    state: &State<T>,
    row: Row,
    column: Column,
) -> Result<String, NoMemory>
    ensures { IfOk result (λ s. IsValueAnswer state.now (Data row column) (string_bytes s)) }
{
    let text = value_line(alloc, &newest_of(state, row, column))?;
    Ok(text)
}
