//! What an ended run left, on the heap.
ghost use Rattle.std.specs.Prelude.{◌≡◌, IfOk, IfErr};

use pb_finished::Finished;
use std::alloc::{AllocFailed, Global};
use std::marker::Model;

/// What the machine of an ended run left. It stands on the heap, since it is five times as large as a batch, and scripts
/// declare one for each of their changes.
#[derive(Drop)]
pub struct EndedRun {
    finished: Box<Finished>,
}

impl Model for EndedRun {
    ghost use Rattle.pb_finished.specs.Finished.{Meant, meant_code};

    ghost Value = { Meant };

    ghost coded = { meant_code };

    ghost view = { λ r. r.finished.value };
}

impl EndedRun {
    /// Moves it to the heap. Refused, it is handed back, since what a run left can't be made again without it.
    pub fn new(alloc: Global, finished: Finished) -> Result<EndedRun, AllocFailed<Finished>>
        ensures ok { IfOk result (λ r. r ≡ finished) }
        ensures handed_back { IfErr result (λ f. f.value ≡ finished) }
    {
        match Box::new(alloc, finished) {
            Ok(finished) => Ok(EndedRun { finished }),
            Err(failed) => Err(failed),
        }
    }

    /// What its machine left.
    pub fn get(&self) -> &Finished
        ensures { result.now ≡ self.now }
    {
        &self.finished
    }

    /// What its machine left, taken from the heap again, so that a job that is then refused memory stands as before.
    pub fn into_finished(self) -> Finished
        ensures { result ≡ self }
    {
        Box::into_inner(self.finished)
    }
}
