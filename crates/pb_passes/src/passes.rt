//! How many passes a drain has.
ghost use Rattle.std.specs.Prelude.{◌≡◌};

/// How many passes are made at most. There is a limit, since an observer that changes a cell which it observes is due
/// again in each.
pub const MAX_PASSES: u32 = 1000;

/// The limit of passes has this value.
pub fn passes_limit_is_this()
    ensures { MAX_PASSES ≡ 1000 }
{}
