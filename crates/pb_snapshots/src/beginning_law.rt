//! What a generation begins with.
ghost use Rattle.pb_snapshots.specs.Beginnings.{SnapshotsBegin};
ghost use Rattle.pb_snapshots.specs.Chosen.{ChosenBegin};

use pb_generations::snapshots_serve;
use pb_history::steps_keep_sound;

/// A state that took over the versions of a snapshot of a kept table, with a mark on each cell that an observer isn't up to date on, begins
/// the next generation of that table.
pub fn snapshots_begin()
    ensures { SnapshotsBegin }
{
    snapshots_serve();
    steps_keep_sound();
}

/// A state that took over what was chosen of such a snapshot, with its marks, goes on with the observers at these places.
pub fn chosen_begin()
    ensures { ChosenBegin }
{
    snapshots_serve();
    steps_keep_sound();
}
