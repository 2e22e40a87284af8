//! Why a call of a log fails.
ghost use Rattle.std.specs.Prelude.{◌≡◌};
ghost use Rattle.pb_base.specs.Growths.{refused_growth};
ghost use Rattle.pb_log.specs.declared.fault.LogFault.TheVariants as faults;

use pb_base::NoMemory;
use std::alloc::AllocError;
use std::io;

/// Why a call of a log fails. Of the last four, what the file holds is the cause, and the file is left as it was.
#[derive(Debug, Drop, thiserror::Error)]
pub enum LogFault {
    /// A growth was refused.
    #[error("{0}")]
    NoMemory(NoMemory),
    /// A call of the disk failed.
    #[error("the disk: {0}")]
    Disk(io::Error),
    /// The log has `MAX_END` bytes.
    #[error("the log is full")]
    Full,
    /// What stands at this byte is neither a whole record nor what a put leaves after the last one.
    #[error("the log is damaged at byte {0}")]
    Damaged(usize),
    /// The header has another manifest.
    #[error("the log is of another manifest")]
    OtherManifest,
    /// The header has another version than 1.
    #[error("the log is of a newer version")]
    NewerVersion,
    /// The first record is no header, or the file has no record, and more bytes than a new log may have.
    #[error("the file is no log")]
    NoHeader,
}

impl From<AllocError> for LogFault {
    ghost from_gives = { λ _ f. f ≡ faults.NoMemory refused_growth };

    fn from(e: AllocError) -> Self {
        LogFault::NoMemory(NoMemory::from(e))
    }
}

impl From<io::Error> for LogFault {
    ghost from_gives = { λ e f. f ≡ faults.Disk e };

    fn from(e: io::Error) -> Self {
        LogFault::Disk(e)
    }
}
