//! Limits, each by its one name.
ghost use Rattle.std.specs.Prelude.{◌≡◌};

/// How many cells a batch may write. A run of a program may write as many.
pub const MAX_CELLS: usize = 16;

/// How many columns there are.
pub const COLUMNS: u8 = 16;

/// How many observers a table may have.
pub const MAX_OBSERVERS: usize = 32;

/// How many seats a table may have: one for each of 63 workers or actors, and the main one.
pub const MAX_SEATS: u32 = 64;

/// How many entries a journal may have. A seat's book keeps the places of entries in 32 bits, which is exact since
/// there are no more than these.
pub const MAX_ENTRIES: usize = 1_000_000;

/// How many changes a script may have.
pub const MAX_CHANGES: usize = 10_000;

/// How many events a schedule may have.
pub const MAX_EVENTS: usize = 1_000_000;

/// The limits have these values. It is a law, since definitions name a limit as the code does, and would take any
/// value.
pub fn limits_are_these()
    ensures cells { MAX_CELLS ≡ 16 }
    ensures columns { COLUMNS ≡ 16 }
    ensures observers { MAX_OBSERVERS ≡ 32 }
    ensures seats { MAX_SEATS ≡ 64 }
    ensures entries { MAX_ENTRIES ≡ 1_000_000 }
    ensures changes { MAX_CHANGES ≡ 10_000 }
    ensures events { MAX_EVENTS ≡ 1_000_000 }
{}
