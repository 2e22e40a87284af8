//! Why a report ended early: by a write, or by memory before any write.
ghost use Rattle.std.specs.Prelude.{◌≡◌};
ghost use Rattle.pb_script.specs.declared.fault.ReportFault.TheVariants as ends;

use pb_base::NoMemory;
use thiserror::Error;

/// Why a report ended before it was whole.
#[derive(Debug, PartialEq, Eq, Drop, Error)]
pub enum ReportFault {
    /// A write failed, or took no byte.
    #[error("cannot write the output")]
    Output,
    /// A growth was refused. Nothing was written, since the text is made whole before its first write.
    #[error("{0}")]
    NoMemory(NoMemory),
}

impl From<NoMemory> for ReportFault {
    ghost from_gives = { λ e f. f ≡ ends.NoMemory e };

    fn from(e: NoMemory) -> ReportFault {
        ReportFault::NoMemory(e)
    }
}
