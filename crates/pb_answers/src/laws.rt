//! What holds of the answers' definitions: an empty function, so that a caller has the law.
ghost use Rattle.pb_answers.specs.SeenHistory.{SeenIsHistory, WrittenIsHistory};

use pb_history::{histories_are_told, journals_are_sound, records_are_told, sound_has_data};

/// What the entries of a table without locks show of a snapshot is what the committed transactions of its journal make it, and
/// the writes that they have are those of these transactions. So where a kept table is at rest, what it answers of its cells
/// is its history's.
pub fn answers_show_history()
    ensures snapshots { SeenIsHistory }
    ensures writes { WrittenIsHistory }
{
    journals_are_sound();
    sound_has_data();
    histories_are_told();
    records_are_told();
}
