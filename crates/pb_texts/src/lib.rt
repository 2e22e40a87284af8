//! The words of the program.
//!
//! A command line is read as `clap` reads the program's definition, or refused.
#![tactic(auto)]

mod words;

pub use words::{
    Excerpt, Options, ProgramFile, ReplayFiles, StoryOptions, Trial, TrialCell, options,
    story_options,
};
