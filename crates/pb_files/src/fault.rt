//! Why what is done with files failed.
ghost use Rattle.std.specs.Prelude.{◌≡◌};
ghost use Rattle.pb_files.specs.PathFaults.{memory_fault};
ghost use Rattle.pb_files.specs.declared.fault.FileFault.TheVariants as faults;

use pb_asm::AsmFault;
use pb_base::NoMemory;
use std::alloc::AllocError;
use std::fmt;

/// Why what is done with files failed.
#[derive(Drop)]
pub enum FileFault<'a> {
    Unreadable(&'a str),
    TooLarge(&'a str),
    NotText(&'a str),
    Unwritable(&'a str),
    Text(AsmFault),
    Output,
    NoMemory(NoMemory),
}

impl<'a> fmt::Display for FileFault<'a> {
    ghost use Rattle.std.specs.Prelude.{Some};
    ghost use Rattle.pb_files.specs.FaultTexts.{file_fault_text};

    ghost output = { λ f. Some (file_fault_text f) };

    fn fmt<W: fmt::Write>(&self, f: &mut fmt::Formatter<W>) -> fmt::Result {
        match self {
            FileFault::Unreadable(path) => write!(f, "cannot read {path}"),
            FileFault::TooLarge(path) => write!(f, "too large {path}"),
            FileFault::NotText(path) => write!(f, "not text {path}"),
            FileFault::Unwritable(path) => write!(f, "cannot write {path}"),
            FileFault::Text(fault) => write!(f, "{fault}"),
            FileFault::Output => write!(f, "cannot write the output"),
            FileFault::NoMemory(_) => write!(f, "no memory"),
        }
    }
}

impl<'a> From<NoMemory> for FileFault<'a> {
    ghost from_gives = { λ e f. f ≡ faults.NoMemory e };

    fn from(e: NoMemory) -> FileFault<'a> {
        FileFault::NoMemory(e)
    }
}

impl<'a> From<AllocError> for FileFault<'a> {
    ghost from_gives = { λ _ f. f ≡ memory_fault };

    fn from(e: AllocError) -> FileFault<'a> {
        FileFault::NoMemory(NoMemory::from(e))
    }
}
