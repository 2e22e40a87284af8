//! The words of a command line, and what both programs print before they know what is asked for.
ghost use Rattle.std.specs.Prelude.{◌≡◌, ◌≢◌, ◌⊎◌, IfOk, MatchResult, map, string_bytes};
ghost use Rattle.clap.specs.Words.{kind_of};
ghost use Rattle.clap.specs.declared.error.kind.ErrorKind.TheVariants.{DisplayHelp, DisplayVersion};
ghost use Rattle.pb_reading.specs.Reading.{texts_of};

use clap::error::ErrorKind;
use pb_base::NoMemory;
use std::alloc::{AllocError, Global};
use std::{env, io};

// Reports that a word of the command line isn't text.
fn not_text(rt: &HostRuntime) -> u8 {
    let _ = eprintln!(rt; "error: a word of the command line is not UTF-8");
    2
}

/// The words of the command line, the program's own first; or the status, where it is reported that one isn't text.
pub fn words_given(rt: &HostRuntime) -> Result<Result<Vec<String>, u8>, NoMemory> {
    match env::args(rt) {
        Ok(args) => Ok(Ok(args.collect(rt.alloc())?)),
        Err(error) => match error.kind() {
            io::ErrorKind::OutOfMemory => Err(NoMemory::from(AllocError)),
            _ => Ok(Err(not_text(rt))),
        },
    }
}

/// All of these words, lent.
pub fn lent<'a>(alloc: Global, owned: &'a [String]) -> Result<Vec<&'a str>, NoMemory>
    ensures { IfOk result (λ v. texts_of v.items ≡ map string_bytes owned.now) }
{
    let mut words = Vec::new(alloc);
    for word in owned {
        words.push(word.as_str())?;
    }
    Ok(words)
}

// Reports that a help can't be printed.
fn unprinted(rt: &HostRuntime) -> u8
    ensures { result ≡ 1 }
{
    let _ = eprintln!(rt; "cannot write the output");
    1
}

/// Prints what is wrong with a command line, or the help that it asks for, and returns the status: 2 for a mistake, and for a help
/// 0, or 1 where it can't be printed.
pub fn refuse(rt: &HostRuntime, error: &clap::Error) -> Result<u8, NoMemory>
    ensures mistake { kind_of error.now ≢ DisplayHelp → kind_of error.now ≢ DisplayVersion
        → IfOk result (λ s. s ≡ 2) }
    ensures shown { kind_of error.now ≡ DisplayHelp → IfOk result (λ s. (s ≡ 0) ⊎ (s ≡ 1)) }
{
    match error.kind() {
        ErrorKind::OutOfMemory => return Err(NoMemory::from(AllocError)),
        _ => {}
    }
    let printed = error.print(rt);
    if error.use_stderr() {
        return Ok(2);
    }
    match printed {
        Ok(()) => Ok(0),
        Err(_) => Ok(unprinted(rt)),
    }
}

// Reports a refused growth. Where even that can't be written, the status says it alone.
fn no_memory(rt: &HostRuntime, _refused: NoMemory) -> u8
    ensures { result ≡ 1 }
{
    let _ = eprintln!(rt; "no memory");
    1
}

/// The status of the program: this one, or 1 where a growth was refused, which is reported.
pub fn exit_status(rt: &HostRuntime, status: Result<u8, NoMemory>) -> u8
    ensures { MatchResult status (λ s. result ≡ s) (λ _. result ≡ 1) }
{
    match status {
        Ok(status) => status,
        Err(refused) => no_memory(rt, refused),
    }
}
