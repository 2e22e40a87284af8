//! What ends a reading: inside a text a code of the format, or want of memory; at the public edge a line and a number.
ghost use Rattle.std.specs.Prelude.{◌≡◌, ◌<◌, ◌+◌};
ghost use Rattle.pb_base.specs.Growths.{refused_growth};
ghost use Rattle.pb_reading.specs.Faults.{line_told, code_told};
ghost use Rattle.pb_reading.specs.declared.fault.TextFault.TheVariants.{At};
ghost use Rattle.pb_reading.specs.declared.fault.LineFault.TheVariants.{NoMemory};

use pb_base::NoMemory;
use std::alloc::{AllocError, AllocFailed};
use std::error::Error;
use std::fmt;

/// Why a line wasn't taken. A format's codes have no case of memory, since no line is at fault for that.
#[derive(Drop)]
pub enum LineFault<C> {
    /// A growth was refused.
    NoMemory(NoMemory),
    /// What is wrong with the line.
    Code(C),
}

impl<C> From<AllocError> for LineFault<C> {
    ghost from_gives = { λ _ e. e ≡ NoMemory refused_growth };

    fn from(e: AllocError) -> LineFault<C> {
        LineFault::NoMemory(NoMemory::from(e))
    }
}

impl<T: Drop, C> From<AllocFailed<T>> for LineFault<C> {
    ghost from_gives = { λ _ e. e ≡ NoMemory refused_growth };

    fn from(e: AllocFailed<T>) -> LineFault<C> {
        LineFault::NoMemory(NoMemory::from(e))
    }
}

/// A fault of a text. Want of memory is reported as line 0 and code 1, and is made of a refused
/// growth alone.
#[derive(Debug, Drop)]
pub enum TextFault {
    /// A growth was refused, whichever line was read.
    NoMemory(NoMemory),
    /// The line, from 1, and the number of its code. What is no line's has line 0.
    At { line: usize, code: u8 },
}

impl TextFault {
    /// At the line of this index, which is counted from 0; lines are reported from 1.
    pub fn at(index: usize, code: u8) -> TextFault
        requires { index < usize.MAX }
        ensures { result ≡ At (index + 1) code }
    {
        TextFault::At {
            line: index + 1,
            code,
        }
    }

    /// The line by which it is reported, from 1; 0 if it is no line's.
    pub fn line(&self) -> usize
        ensures { result ≡ line_told self.now }
    {
        match self {
            TextFault::NoMemory(_) => 0,
            TextFault::At { line, .. } => *line,
        }
    }

    /// The number by which it is reported.
    pub fn code(&self) -> u8
        ensures { result ≡ code_told self.now }
    {
        match self {
            TextFault::NoMemory(_) => 1,
            TextFault::At { code, .. } => *code,
        }
    }
}

impl fmt::Display for TextFault {
    ghost use Rattle.std.specs.Prelude.{Some};
    ghost use Rattle.pb_reading.specs.Faults.{line_and_code, line_told, code_told};

    ghost output = { λ f. Some (line_and_code (line_told f) (code_told f)) };

    fn fmt<W: fmt::Write>(&self, f: &mut fmt::Formatter<W>) -> fmt::Result {
        let line = self.line();
        let code = self.code();
        write!(f, "line {line} code {code}")
    }
}

impl Error for TextFault {}
