//! Why a table is kept no longer.
ghost use Rattle.std.specs.Prelude.{◌≡◌};
ghost use Rattle.pb_base.specs.Growths.{refused_growth};
ghost use Rattle.pb_keep.specs.Left.{fault_by, fault_of_carried, fault_of_line};
ghost use Rattle.pb_keep.specs.declared.fault.KeepFault.TheVariants as ends;

use crate::source::InputFault;
use pb_base::NoMemory;
use pb_keeper::Stopped;
use pb_log::LogFault;
use pb_state::CarryFault;
use std::alloc::{AllocError, AllocFailed};
use thiserror::Error;

/// Why a table is kept no longer. What was answered stands; of what was sent and not answered a beginning is made, each
/// record of the log whole, when it is opened again.
#[derive(Debug, Drop, Error)]
pub enum KeepFault {
    #[error("{0}")]
    NoMemory(NoMemory),
    /// Memory was refused as the changes of a log were made again: so many were made of so many.
    #[error("{0}: {1} of {2} changes were made")]
    MadeInPart(NoMemory, u64, u64),
    /// The log failed, or is damaged.
    #[error("{0}")]
    Log(LogFault),
    /// A record of the log is no script: another program wrote it.
    #[error("a record of the log can't be read")]
    Record,
    /// The record of the snapshot that the log begins with isn't that of a table with these observers.
    #[error("the snapshot of the log is damaged")]
    Snapshot,
    /// The table has given out its last timestamp.
    #[error("no timestamp is left")]
    NoTimestamp,
    #[error("cannot write the output")]
    Output,
    /// A read of the input failed.
    #[error("cannot read the input")]
    Input,
}

impl From<NoMemory> for KeepFault {
    ghost from_gives = { λ e f. f ≡ ends.NoMemory e };

    fn from(e: NoMemory) -> KeepFault {
        KeepFault::NoMemory(e)
    }
}

impl From<AllocError> for KeepFault {
    ghost from_gives = { λ _ f. f ≡ ends.NoMemory refused_growth };

    fn from(e: AllocError) -> KeepFault {
        KeepFault::NoMemory(e.into())
    }
}

impl<T: Drop> From<AllocFailed<T>> for KeepFault {
    ghost from_gives = { λ _ f. f ≡ ends.NoMemory refused_growth };

    fn from(e: AllocFailed<T>) -> KeepFault {
        KeepFault::NoMemory(e.into())
    }
}

impl From<LogFault> for KeepFault {
    ghost from_gives = { λ e f. f ≡ ends.Log e };

    fn from(e: LogFault) -> KeepFault {
        KeepFault::Log(e)
    }
}

impl From<CarryFault> for KeepFault {
    ghost from_gives = { λ e f. f ≡ fault_of_carried e };

    fn from(e: CarryFault) -> KeepFault {
        match e {
            CarryFault::NoMemory(refused) => KeepFault::NoMemory(refused),
            _ => KeepFault::Snapshot,
        }
    }
}

impl From<Stopped> for KeepFault {
    ghost from_gives = { λ e f. f ≡ fault_by e };

    fn from(e: Stopped) -> KeepFault {
        match e {
            Stopped::NoMemory(refused) => KeepFault::NoMemory(refused),
            // On a table that keeps changes nothing else stops one.
            Stopped::Refused(_) | Stopped::Conflict => KeepFault::NoTimestamp,
        }
    }
}

impl From<InputFault> for KeepFault {
    ghost from_gives = { λ e f. f ≡ fault_of_line e };

    fn from(e: InputFault) -> KeepFault {
        match e {
            InputFault::NoMemory(refused) => KeepFault::NoMemory(refused),
            InputFault::Reader => KeepFault::Input,
        }
    }
}
