//! The lines on how often observers ran.
ghost use Rattle.std.specs.Prelude.{◌≡◌, IfOk, string_bytes};
ghost use Rattle.pb_script.specs.ReportLines.{run_line, run_lines};

use std::alloc::{AllocError, Global};
use std::marker::Model;

/// An observer's name, and the number of its committed runs.
#[derive(Drop)]
pub struct Tally {
    pub name: String,
    pub runs: usize,
}

impl Model for Tally {
    ghost use Rattle.std.specs.Prelude.{ℕ, List, string_bytes};

    ghost Value = { List ℕ × ℕ };

    ghost view = { λ t. (string_bytes t.name, t.runs) };
}

fn run_line(alloc: Global, tally: &Tally) -> Result<String, AllocError>
    ensures { IfOk result (λ s. string_bytes s ≡ run_line tally.now) }
{
    let name = tally.name.as_str();
    let runs = tally.runs;
    format!(in alloc; "runs {name} {runs}\n")
}

/// The lines of the observers, in their order.
pub fn run_lines(alloc: Global, tallies: &[Tally]) -> Result<String, AllocError>
    ensures { IfOk result (λ s. string_bytes s ≡ run_lines tallies.now) }
{
    let mut text = String::new(alloc);
    for tally in tallies {
        let line = run_line(alloc, tally)?;
        text.push_str(line.as_str())?;
    }
    Ok(text)
}
