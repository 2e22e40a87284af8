//! The lines that are printed of a log, but for the answers that `pb_keep` writes.
ghost use Rattle.std.specs.Prelude.{◌≡◌, IfOk, OnOk, string_bytes};
ghost use Rattle.std.specs.Io.KnownBytes.{Appends};
ghost use Rattle.percobpf_keep.specs.Printed.{printed_text};

use crate::failure::Failure;
use pb_base::Sink;
use std::alloc::{AllocError, Global};
use std::fmt;

/// A line that is printed of a log.
#[derive(Clone, Copy)]
pub(crate) enum Printed {
    /// It is opened, and has so many changes.
    Opened(u64),
    /// So many of its changes are made, of so many. Questions alone are answered.
    OpenedFirst(u64, u64),
    /// So many observers came, so many runs were committed while they caught up, and so many observers are gone.
    Changed(usize, u64, usize),
    /// It is compacted, and its snapshot has so many versions.
    Compacted(usize),
    /// It is copied, and the copy has so many changes.
    Copied(u64),
}

impl fmt::Display for Printed {
    ghost use Rattle.std.specs.Prelude.{Some};
    ghost use Rattle.percobpf_keep.specs.Printed.{printed_text};

    ghost output = { λ p. Some (printed_text p) };

    fn fmt<W: fmt::Write>(&self, f: &mut fmt::Formatter<W>) -> fmt::Result {
        match self {
            Printed::Opened(found) => write!(f, "open {found}\n"),
            Printed::OpenedFirst(made, all) => write!(f, "open {made} of {all}\n"),
            Printed::Changed(added, runs, gone) => {
                write!(f, "added {added} runs {runs} gone {gone}\n")
            }
            Printed::Compacted(versions) => write!(f, "compacted {versions}\n"),
            Printed::Copied(count) => write!(f, "copied {count}\n"),
        }
    }
}

/// The line as a text.
pub(crate) fn line_text(alloc: Global, line: Printed) -> Result<String, AllocError>
    ensures { IfOk result (λ text. string_bytes text ≡ printed_text line) }
{
    format!(in alloc; "{line}")
}

/// Writes the line.
pub(crate) fn write_line<S: Sink>(alloc: Global, out: &mut S, line: Printed) -> Result<(), Failure>
    ensures { OnOk result (Appends (S.taken out.old) (S.taken out.new) (printed_text line)) }
{
    let text = line_text(alloc, line)?;
    out.write_all(text.as_bytes())?;
    Ok(())
}
