//! What didn't hold.
use pb_base::NoMemory;
use pb_script::ReportFault;
use std::alloc::{AllocError, AllocFailed};
use test_fixtures::Unready;
use thiserror::Error;

/// What of a run didn't hold, or that memory was refused.
#[derive(Debug, Drop, Error)]
pub enum Fault {
    #[error("no memory, or the manifest or the script isn't read")]
    Unready(Unready),
    #[error("the seats don't agree with the journal")]
    Seats,
    #[error("a seat was refused a step")]
    Refused,
    #[error("marks or locks are left")]
    Left,
    #[error("a transaction is committed that isn't declared and stamped, or two have one commit")]
    History,
    #[error("the committed changes aren't those that are not named as unfinished")]
    Changes,
    #[error("the report isn't that of the committed transactions")]
    Report,
    #[error("a cell isn't what its observer makes of another")]
    Fed,
}

impl From<Unready> for Fault {
    fn from(e: Unready) -> Fault {
        Fault::Unready(e)
    }
}

impl From<NoMemory> for Fault {
    fn from(e: NoMemory) -> Fault {
        Fault::Unready(Unready::from(e))
    }
}

impl From<AllocError> for Fault {
    fn from(e: AllocError) -> Fault {
        Fault::Unready(Unready::from(e))
    }
}

impl<T: Drop> From<AllocFailed<T>> for Fault {
    fn from(e: AllocFailed<T>) -> Fault {
        Fault::Unready(Unready::from(e))
    }
}

impl From<ReportFault> for Fault {
    fn from(_e: ReportFault) -> Fault {
        Fault::Report
    }
}
