//! What is done with files, whatever the command: they are read as bytes and as text, and programs
//! in them are assembled, listed and checked.
//!
//! Files are known by their paths alone (`Paths`), so that files in memory do as well, and the
//! contracts speak wherever it is known what a reading answers. The system's are `Files`. The crate
//! stands beside `pb_driver`, since neither needs the other: `pb_command` takes both, and the story
//! program takes the reading too. All files of a command are read before one is taken as text, and
//! a program's text is made before any of it is written. So for an empty file `check_file` writes
//! `refused slot 0 code 10`, and a file that isn't there is a fault whose text is
//! `cannot read PATH`.
#![tactic(auto)]

mod answer;
mod fault;
mod files;
mod laws;
mod paths;
mod programs;
mod reading;

pub use answer::{Verdict, VerdictText};
pub use fault::FileFault;
pub use files::Files;
pub use laws::{first_file_fault_is_told, known_programs_are_judged};
pub use paths::{PathFault, Paths};
pub use programs::{
    Listing, ProgramText, assemble_file, check_file, refusal_of, tell_file, write_answer,
};
pub use reading::{bytes_at, texts_at, three_texts_at};
