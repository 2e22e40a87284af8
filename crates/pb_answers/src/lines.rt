//! The line of a value. The other lines are those of reports.
ghost use Rattle.std.specs.Prelude.{◌≡◌, IfOk, string_bytes};
ghost use Rattle.pb_answers.specs.Values.{value_line};

use pb_base::Content;
use pb_script::{Newest, digits_of};
use std::alloc::{AllocError, Global};

/// The line of what a snapshot has of a cell.
pub(crate) fn value_line(alloc: Global, newest: &Option<Newest>) -> Result<String, AllocError>
    ensures { IfOk result (λ s. string_bytes s ≡ value_line newest.now) }
{
    let Some(newest) = newest else {
        return String::from_str(alloc, "absent\n");
    };
    let commit = newest.commit.0;
    match &newest.content {
        Content::Value(value) => {
            let mut room = [0; 64];
            let digits = digits_of(value, &mut room);
            format!(in alloc; "value {digits} commit {commit}\n")
        }
        // No data cell has a stamp, so that what isn't a value is a deletion.
        _ => format!(in alloc; "deleted commit {commit}\n"),
    }
}
