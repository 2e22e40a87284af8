//! Whether a table has room for a change, which is looked at before anything is done for it.
ghost use Rattle.std.specs.Prelude.{◌≡◌};
ghost use Rattle.pb_keeper.specs.Room.{has_room};

use pb_state::State;
use pb_store::Tablet;

/// The greatest last timestamp of a table that takes changes, 2^64 - 2^31. After it there are timestamps for 10,000 changes, each
/// with 100,000 runs, where each of these transactions takes two.
pub const MAX_CLOCK: u64 = 18_446_744_071_562_067_968;

/// Whether a table that may have so many entries has room for a change: it has fewer, and timestamps enough for each change of
/// a script.
pub fn has_room<T: Tablet>(state: &State<T>, limit: u64) -> bool
    ensures { result ≡ has_room limit state.now }
{
    (state.table().len() as u64) < limit && state.clock().0 <= MAX_CLOCK
}
