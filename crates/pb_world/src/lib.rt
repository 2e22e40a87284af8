//! Worlds: one shared table, and actors that are launched, stepped and crashed as a list of events says.
//!
//! A world gives one actor a step at a time, in an order that its caller chooses, so that a crash
//! between any two steps is an event like others. `pb_threads` has the same jobs in threads, whose
//! order nobody chooses. `pb_driver` replays schedules in a world, and `pb_story` prints what each
//! event of one did. After `launch 1 change 1`, six times `step 1` and `crash 1` a change of two
//! cells is committed, and the lock on its second cell still stands.
//!
//! Events happen exactly as defined, each with its note, up to the first at fault; and after each of any list the
//! headline holds.
#![tactic(auto)]

mod actor;
mod fault;
mod job;
mod laws;
mod note;
mod world;

pub use fault::{EventFault, WorldFault};
pub use job::ActorJob;
pub use laws::{actors_hold_their_launch, worlds_hold, worlds_stay_sound};
pub use note::Note;
pub use pb_parse::{Event, Job};
pub use world::World;
