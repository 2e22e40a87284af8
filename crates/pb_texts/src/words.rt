//! The words of a command line.
mod adding;
mod choice;
mod excerpt;
mod parse;
mod story;
mod trial;

pub use choice::{Excerpt, Options, ProgramFile, ReplayFiles, StoryOptions, Trial, TrialCell};
pub use parse::options;
pub use story::story_options;
