//! What happened, in words: the steps and answers of the shared table, the story of a list of events in a world, what
//! is known before each slot of a program, and what one run of a program does outside any table.
//!
//! A report shows what a replay left, and not how it came there. Those who learn the table by hand, or
//! whose program is refused, ask for that. It stands beside the driver, so that no crate below knows of stories and no contract of the
//! command has a case for their lines. `percobpf_story` calls it, and `test_jobs` for the steps of a journal. Each
//! line is that of its event in the world before it, and events happen as `World::run` lets them; a line is written as
//! soon as its event has happened, so that a story whose schedule is at fault shows how it came there. An excerpt selects
//! lines by the number of their event and by what came of it, and all events happen all the same. A first
//! `launch 1 change 1` has the line `0 1 launch change 1 -> launched`.
#![tactic(auto)]

mod answers;
mod cells;
mod fault;
mod frames;
mod lines;
mod steps;
mod story;
mod trial;

pub use answers::add_answer;
pub use fault::StoryFault;
pub use frames::frames_text;
pub use steps::add_step;
pub use story::tell_story;
pub use trial::trial_text;
