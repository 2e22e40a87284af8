//! What a snapshot that was taken may be used for.
ghost use Rattle.pb_snapshots.specs.Chosen.{ChosenAreAccepted};
ghost use Rattle.pb_snapshots.specs.TakenOrder.{TakenAreAccepted, TakenAreInOrder};

use pb_generations::{kept_tables_are_whole, snapshots_serve};
use pb_history::{runs_are_told, scripts_write_batches, steps_keep_sound};
use pb_keeper::tables_keep_their_changes;

/// The versions of a snapshot that was taken of a kept table are in the order in which a state takes them over, so that
/// [`State::carry_over`](pb_state::State::carry_over) refuses none of them but for want of memory.
pub fn taken_are_in_order()
    ensures order { TakenAreInOrder }
    ensures accepted { TakenAreAccepted }
{
    kept_tables_are_whole();
    runs_are_told();
    scripts_write_batches();
    snapshots_serve();
    steps_keep_sound();
    tables_keep_their_changes();
}

/// Nor does it refuse what is chosen of them for the observers that stay, by rising commits and by rising cells within one commit.
pub fn chosen_are_accepted()
    ensures { ChosenAreAccepted }
{
    kept_tables_are_whole();
    runs_are_told();
    scripts_write_batches();
    snapshots_serve();
    steps_keep_sound();
    tables_keep_their_changes();
}
