//! How the fault of a manifest is reported: by numbers, since the names of codes stay inside.
ghost use Rattle.std.specs.Prelude.{◌≡◌};
ghost use Rattle.pb_registry.specs.Judging.{fault_with, fault_at, memory_in};

use crate::code::ManifestCode;
use pb_base::{NoMemory, Refused};
use std::error::Error;
use std::fmt;

/// Why a manifest is refused: the number of the observer where it is one's fault, the code, and for code 56 where its
/// program is refused. 50 the text isn't read as JSON, 51 wrong members, types or profile, 52 over 32 observers, 53 a name
/// that isn't 1 to 32 of `a` to `z`, `0` to `9` and `-`, or that an observer before has, 54 a column over 15, or a helper
/// that isn't 1 to 4 or named twice, or a record of another version than 1 and 2, 55 code that isn't pairs of the digits
/// `0` to `9` and `a` to `f`, 56 a program that isn't accepted with its helpers. Where memory ran out the code is 1.
#[derive(Debug, PartialEq, Eq, Drop)]
pub struct RegistryFault {
    observer: Option<u8>,
    cause: ManifestCode,
}

impl fmt::Display for RegistryFault {
    ghost use Rattle.std.specs.Prelude.{Some};
    ghost use Rattle.pb_registry.specs.FaultTexts.{fault_text};

    ghost output = { λ f. Some (fault_text f) };

    fn fmt<W: fmt::Write>(&self, f: &mut fmt::Formatter<W>) -> fmt::Result {
        let code = self.code();
        match (self.observer(), self.program()) {
            (Some(observer), Some(Refused { slot, code: inner })) => {
                write!(
                    f,
                    "observer {observer} code {code} slot {slot} code {inner}"
                )
            }
            (Some(observer), None) => write!(f, "observer {observer} code {code}"),
            (None, _) => write!(f, "code {code}"),
        }
    }
}

impl Error for RegistryFault {}

impl RegistryFault {
    ghost use Rattle.std.specs.Prelude.{Ok, Err};
    ghost use Rattle.pb_registry.specs.Codes.{number_of, refusal_of};

    /// The place of the observer that is at fault.
    pub fn observer(&self) -> Option<u8>
        ensures { result ≡ self.now.observer }
    {
        self.observer
    }

    /// The number by which it is reported.
    pub fn code(&self) -> u8
        ensures { result ≡ number_of self.now.cause }
    {
        self.cause.number()
    }

    /// Where the observer's program is refused.
    pub fn program(&self) -> Option<Refused>
        ensures { result ≡ refusal_of self.now.cause }
    {
        self.cause.refusal()
    }

    /// The refused growth that it was made of, or else the fault itself.
    pub fn memory(self) -> Result<NoMemory, RegistryFault>
        ensures { result ≡ memory_in self }
    {
        match self.cause {
            ManifestCode::Memory(e) => Ok(e),
            cause => Err(RegistryFault {
                observer: self.observer,
                cause,
            }),
        }
    }
}

/// A code as it is reported: of the whole, or of the observer at a place.
pub fn fault_with(observer: Option<u8>, code: ManifestCode) -> RegistryFault
    ensures { result ≡ fault_with observer code }
{
    RegistryFault {
        observer,
        cause: code,
    }
}

/// A code as it is reported of the observer at a place. Want of memory has no place, since it isn't
/// that observer's fault.
pub fn fault_at(place: u8, code: ManifestCode) -> RegistryFault
    ensures { result ≡ fault_at place code }
{
    match code {
        ManifestCode::Memory(e) => fault_with(None, ManifestCode::Memory(e)),
        code => fault_with(Some(place), code),
    }
}
