//! The real files: nothing is known of what they hold, since no contract of the standard library
//! states it.
ghost use Rattle.std.specs.Prelude.{None};

use crate::paths::{PathFault, Paths};
use pb_base::NoMemory;
use std::alloc::AllocError;
use std::fs;
use std::io::{self, ErrorKind, Read};

/// The most bytes that a file may have: 16 MiB.
const LIMIT: u64 = 16_777_216;

/// The files of the system. No contract states what they hold, and they may change between two
/// readings. So of none is it known what reading it answers (`held` is `None` at each path), and
/// the clauses of `Paths` on known answers promise nothing here. `command` is proved over any
/// paths, also over those of which all is known, and can't distinguish one kind from the other.
#[derive(Drop)]
pub struct Files<'a> {
    rt: &'a HostRuntime,
    failed: bool,
}

impl<'a> Files<'a> {
    pub fn new(rt: &'a HostRuntime) -> Files<'a> {
        Files { rt, failed: false }
    }

    // The bytes of a file, up to one more than it may have: the one more shows that there are too
    // many.
    fn bytes(&self, path: &str) -> io::Result<Vec<u8>> {
        let mut bytes = Vec::new(self.rt.alloc());
        let file = fs::open(self.rt, path)?;
        file.take(LIMIT + 1).read_to_end(&mut bytes)?;
        Ok(bytes)
    }
}

// Why a file wasn't read or written.
fn fault_of(error: &io::Error) -> PathFault {
    match error.kind() {
        ErrorKind::OutOfMemory => PathFault::NoMemory(NoMemory::from(AllocError)),
        _ => PathFault::Failed,
    }
}

impl<'a> Paths for Files<'a> {
    ghost held = { λ _ _. None };

    ghost failed = { λ f. f.failed };

    fn read(&mut self, path: &str) -> Result<Vec<u8>, PathFault> {
        match self.bytes(path) {
            Ok(bytes) if bytes.len() as u64 > LIMIT => Err(PathFault::TooLarge),
            Ok(bytes) => Ok(bytes),
            Err(error) => Err(fault_of(&error)),
        }
    }

    fn write(&mut self, path: &str, bytes: &[u8]) -> Result<(), PathFault> {
        match fs::write(self.rt, path, bytes) {
            Ok(()) => Ok(()),
            Err(error) => {
                self.failed = true;
                Err(fault_of(&error))
            }
        }
    }
}
