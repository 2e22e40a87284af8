//! How much a program may take, and how much memory it is given. These are the project's own profile, since RFC 9669
//! leaves both to the platform.
ghost use Rattle.std.specs.Prelude.{◌≡◌};

/// The most slots that a program of any profile takes: those of profile 2.
pub const MAX_SLOTS: usize = 4_096;

/// The most slots that a program of profile 1 takes.
pub const PROFILE_1_SLOTS: usize = 512;

/// The bytes of the stack. R10 points to the address after them, so that offsets from it are
/// negative.
pub const STACK_BYTES: usize = 512;

/// The bytes of a change record of version 1.
pub const RECORD_BYTES: usize = 80;

/// The bytes of a change record of version 2, and so the most that a change record has.
pub const MAX_RECORD_BYTES: usize = 120;

/// A program's limits have these values. It is a law, since definitions name them as the code does, and would take any.
pub fn program_limits_are_these()
    ensures slots { MAX_SLOTS ≡ 4_096 }
    ensures slots_of_profile_1 { PROFILE_1_SLOTS ≡ 512 }
    ensures stack { STACK_BYTES ≡ 512 }
    ensures record { RECORD_BYTES ≡ 80 }
    ensures largest_record { MAX_RECORD_BYTES ≡ 120 }
{}
