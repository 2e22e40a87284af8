//! Whether a seat received what the journal has.
ghost use Rattle.std.specs.Prelude.{◌≡◌, ◌↔◌, IsTrue};
ghost use Rattle.pb_ending.specs.Cursors.{told_by};

use pb_history::{KeptCall, KeptEntry};

/// Whether a seat received what the journal's entry records.
pub(crate) fn is_same(entry: &KeptEntry, told: &KeptCall) -> bool
    ensures { IsTrue result ↔ (told.now ≡ told_by entry.now) }
{
    told.is_same(entry.call())
}
