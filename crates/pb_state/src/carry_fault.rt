//! Why versions aren't carried over into a state.
ghost use Rattle.std.specs.Prelude.{◌≡◌};
ghost use Rattle.pb_state.specs.CarriedOver.{carry_code};
ghost use Rattle.pb_state.specs.declared.carry_fault.CarryFault.TheVariants as faults;

use pb_base::NoMemory;

/// Why a version can't come next after those before it.
#[derive(Drop)]
pub enum CarryFault {
    NoMemory(NoMemory),
    /// Its commit isn't above its start.
    NotAboveStart,
    /// Its commit is above the last timestamp that was given out.
    AboveLast,
    /// It is of the start of one before, but has another commit, or its cell isn't above; or its start isn't above the
    /// commit of one before.
    OutOfOrder,
    /// A stamp in a data cell, or in an acknowledgment anything but the stamp of its own start.
    NotItsContent,
    /// An acknowledgment of an observer that there isn't, or of another column than that one's.
    NoItsObserver,
}

impl From<NoMemory> for CarryFault {
    ghost from_gives = { λ e f. f ≡ faults.NoMemory e };

    fn from(e: NoMemory) -> CarryFault {
        CarryFault::NoMemory(e)
    }
}

impl CarryFault {
    /// The number by which it is reported.
    pub fn code(&self) -> u8
        ensures { result ≡ carry_code self.now }
    {
        match self {
            CarryFault::NoMemory(_) => 1,
            CarryFault::NotAboveStart => 100,
            CarryFault::AboveLast => 101,
            CarryFault::OutOfOrder => 102,
            CarryFault::NotItsContent => 104,
            CarryFault::NoItsObserver => 105,
        }
    }
}
