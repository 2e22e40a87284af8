//! What is known before each slot of a program, as one more text that a command writes for a file's.
ghost use Rattle.pb_story.specs.Frames.{frames_text};

use pb_base::NoMemory;
use pb_files::ProgramText;
use pb_isa::Program;
use std::alloc::Global;

/// What is known before each slot.
pub struct Frames;

impl ProgramText for Frames {
    ghost text_of = { frames_text };

    fn text(alloc: Global, program: &Program) -> Result<String, NoMemory> {
        pb_story::frames_text(alloc, program)
    }
}
