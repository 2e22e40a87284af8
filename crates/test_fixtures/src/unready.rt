//! Why there is nothing to begin with, and a growth that is refused.
use pb_base::{NoMemory, Refusal};
use pb_parse::ScriptFault;
use pb_registry::RegistryFault;
use pb_verify::VerifyFault;
use std::alloc::{AllocError, AllocFailed, Global};

/// Why a test has nothing to begin with: a growth was refused, or what it was given isn't what it has to be. The second is
/// apart, so that a row that expects want of memory isn't met by it.
#[derive(Debug, PartialEq, Eq, Drop)]
pub enum Unready {
    NoMemory(NoMemory),
    /// What isn't as it has to be.
    Other(&'static str),
}

impl From<NoMemory> for Unready {
    fn from(e: NoMemory) -> Unready {
        Unready::NoMemory(e)
    }
}

impl From<AllocError> for Unready {
    fn from(e: AllocError) -> Unready {
        Unready::NoMemory(NoMemory::from(e))
    }
}

impl<T: Drop> From<AllocFailed<T>> for Unready {
    fn from(e: AllocFailed<T>) -> Unready {
        Unready::NoMemory(NoMemory::from(e))
    }
}

impl From<Refusal> for Unready {
    fn from(e: Refusal) -> Unready {
        match e.memory() {
            Ok(refused) => Unready::NoMemory(refused),
            Err(_) => Unready::Other("the table is refused"),
        }
    }
}

impl From<VerifyFault> for Unready {
    fn from(e: VerifyFault) -> Unready {
        match e {
            VerifyFault::NoMemory(refused) => Unready::NoMemory(refused),
            VerifyFault::Refused(_) => Unready::Other("the program is refused"),
        }
    }
}

impl From<RegistryFault> for Unready {
    fn from(e: RegistryFault) -> Unready {
        match e.memory() {
            Ok(refused) => Unready::NoMemory(refused),
            Err(_) => Unready::Other("the manifest has a fault"),
        }
    }
}

// The faults of scripts, schedules and assembler text are of one type.
impl From<ScriptFault> for Unready {
    fn from(e: ScriptFault) -> Unready {
        match e {
            ScriptFault::NoMemory(refused) => Unready::NoMemory(refused),
            ScriptFault::At { .. } => Unready::Other("the text has a fault"),
        }
    }
}

/// Asks for a growth that is refused, for a tablet or a file in memory that refuses one. No block
/// has so many bytes, so that it answers with the refused growth. Its contract can't promise that;
/// if it doesn't refuse, what asks goes on as if it refused nothing.
pub fn refused(alloc: Global) -> Result<(), NoMemory> {
    let _block = Vec::<u8>::with_capacity(alloc, usize::MAX)?;
    Ok(())
}
