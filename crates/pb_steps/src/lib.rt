//! The steps of the shared table (OSDI 2010, sections 2.2 to 2.4): what is asked, what is answered, and what a step does.
//!
//! A step is the relation `TableStep` (Steps), with one case for each step and answer; a refused
//! step has none. It stands apart from the code so that the laws of steps, in `pb_history`, need no
//! tablets, and a new body in `pb_state` checks none of them anew; plans, jobs and scripts know
//! steps, answers and declarations, and no table. The promise: a step is copied and compared with
//! all that it declares, and the type of a declaration promises that a script's is a batch, and a
//! run's what its program means. `Prewrite(5, cell)`, for one, has two cases: `Done`, where no lock
//! and no write record of 5 or later stands on the cell, puts data and lock there; `Conflict`,
//! where one does, fails the transaction.
#![tactic(auto)]

mod ended_run;
mod phase;
mod same;
mod seen;
mod step;

pub use ended_run::EndedRun;
pub use phase::Phase;
pub use seen::{RecordedRead, Seen, acknowledged_in, old_at, reply_in, stamp_of, version_in};
pub use step::{Answer, Declaration, Declared, Step, Work};
