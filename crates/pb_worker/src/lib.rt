//! What a run of workers made, by the journal of its table.
//!
//! Workers run in `pb_threads`, and `pb_ending` compares their seats' lists with the journal, each without the other.
//! Here stands what both come to: the law `changes_are_made`, which `pb_driver` calls before a run, and all that a
//! program with workers calls. Of five changes of which none is named as unfinished, the journal has five committed
//! script transactions and no others.
#![tactic(auto)]

mod laws;

pub use laws::changes_are_made;
pub use pb_ending::{Ended, finish};
pub use pb_passes::MAX_PASSES;
pub use pb_threads::{
    Callee, Desk, Gate, Held, MAX_TRIES, NotRun, Open, Opening, Worked, end_spares, run_workers,
};
