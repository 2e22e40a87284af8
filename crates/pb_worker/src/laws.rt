//! What the workers' lists and the journal show together.
ghost use Rattle.pb_worker.specs.Laws.{ChangesAreMade};

use pb_history::transactions_are_told;

/// Where the seats agree with a legal journal after a run of workers, each change that isn't named
/// as unfinished is a committed script transaction of the journal, no two the same, with its batch,
/// by its worker's seat. If the journal was empty before the run, there are no others. Each call of
/// each seat stands once in the journal, with the answer that the seat got.
pub fn changes_are_made()
    ensures { ChangesAreMade }
{
    transactions_are_told();
}
