//! Why a manifest is refused: the codes are distinct inside, also where three of them are reported
//! by one number.
ghost use Rattle.std.specs.Prelude.{◌≡◌};
ghost use Rattle.pb_registry.specs.Codes.{number_of, refusal_of};

use pb_base::{NoMemory, Refused};

/// What is wrong with a manifest.
#[derive(Debug, PartialEq, Eq, Drop)]
pub enum ManifestCode {
    /// A growth was refused.
    Memory(NoMemory),
    /// Not read as JSON.
    Text,
    /// Wrong members, types or profile.
    Form,
    /// Over 32 observers.
    TooMany,
    /// An observer's name: not of the letters or the length of one, or used before.
    Name,
    /// Its column: over 15.
    Column,
    /// Its helpers: one that there isn't, or one named twice.
    Helpers,
    /// The version of its change record: neither 1 nor 2.
    Record,
    /// The digits of its code.
    Digits,
    /// Its program.
    Program(Refused),
}

impl ManifestCode {
    /// The number by which a code is reported.
    pub fn number(&self) -> u8
        ensures { result ≡ number_of self.now }
    {
        match self {
            ManifestCode::Memory(_) => 1,
            ManifestCode::Text => 50,
            ManifestCode::Form => 51,
            ManifestCode::TooMany => 52,
            ManifestCode::Name => 53,
            ManifestCode::Column | ManifestCode::Helpers | ManifestCode::Record => 54,
            ManifestCode::Digits => 55,
            ManifestCode::Program(_) => 56,
        }
    }

    /// Where the observer's program is refused.
    pub fn refusal(&self) -> Option<Refused>
        ensures { result ≡ refusal_of self.now }
    {
        match self {
            ManifestCode::Program(refused) => Some(*refused),
            _ => None,
        }
    }
}
