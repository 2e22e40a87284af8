//! The state of the shared table, and its transactions.
//!
//! A state has a table of tablets, the observers, the clock and the transactions, and no past.
//! `pb_core`, its only caller in the program, keeps the journal that led to it. What holds of
//! journals is proved in `pb_history`, below. So a new body here checks no law anew. The promise:
//! steps are taken exactly as `TableStep` says, and refused exactly where it says so, with the
//! lowest number; refused for memory, the state is as before. What a step needs is looked up once,
//! where it is tested. `Prewrite(1, cell)` on a free cell, for one, is admitted with where
//! transaction 1 stands, what that declared for the cell, and its primary; it has room made for one
//! prewritten cell more, puts data and lock by one `apply`, which is the last that may be refused,
//! and answers `Done`.
#![tactic(auto)]

mod add_observers;
mod admitted;
mod begin;
mod carry_fault;
mod carry_over;
mod cells;
mod clear;
mod commit;
mod commit_primary;
mod commit_secondary;
mod declare;
mod mark_behind;
mod next_mark;
mod observed;
mod parts;
mod prewrite;
mod read;
mod readings;
mod room;
mod settle;
mod stamp;
mod state;
mod sweep;
mod transaction;
mod transactions;

pub use admitted::{Admitted, TransactionAt};
pub use carry_fault::CarryFault;
pub use carry_over::is_content_of;
pub use pb_accepted::{Accepted, Observer};
pub use pb_finished::Finished;
pub use pb_helpers::Record;
pub use pb_steps::{
    Answer, Declaration, Declared, EndedRun, Phase, RecordedRead, Seen, Step, Work,
    acknowledged_in, version_in,
};
pub use state::State;
