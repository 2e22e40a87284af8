//! Why a command failed, and the lines that report it, each made whole before it is written.
ghost use Rattle.std.specs.Prelude.{◌≡◌, ◌+◌, false, IfOk, codes, string_bytes};
ghost use Rattle.pb_base.specs.Taking.{taking};
ghost use Rattle.pb_command.specs.FaultLines.{worker_line, worker_lines, change_line, change_lines, undone_lines, fault_lines, SaysLines, Tells};
ghost use Rattle.pb_command.specs.declared.fault.Fault.TheVariants as faults;

use pb_base::{NoMemory, Refusal, Sink};
use pb_driver::{Ran, RunFault};
use pb_files::FileFault;
use std::alloc::{AllocError, Global};

/// Why a command failed.
#[derive(Drop)]
pub enum Fault<'a> {
    File(FileFault<'a>),
    Run(RunFault),
    /// The report of a run was written, but a worker was refused or a change is unfinished.
    Undone(Ran),
}

impl<'a> From<RunFault> for Fault<'a> {
    ghost from_gives = { λ f e. e ≡ faults.Run f };

    fn from(fault: RunFault) -> Fault<'a> {
        Fault::Run(fault)
    }
}

// The line that reports how a seat was refused, or none if it wasn't.
fn worker_line(alloc: Global, seat: usize, refusal: &Option<Refusal>) -> Result<String, AllocError>
    ensures { IfOk result (λ s. string_bytes s ≡ worker_line seat refusal.now) }
{
    match refusal {
        Some(refusal) => {
            let code = refusal.code();
            format!(in alloc; "worker {seat} code {code}\n")
        }
        None => Ok(String::new(alloc)),
    }
}

// The lines of the seats, in their order.
fn worker_lines(alloc: Global, refusals: &[Option<Refusal>]) -> Result<String, AllocError>
    ensures { IfOk result (λ s. string_bytes s ≡ worker_lines refusals.now) }
{
    let mut text = String::new(alloc);
    for (seat, refusal) in refusals.iter().enumerate() {
        let line = worker_line(alloc, seat, refusal)?;
        text.push_str(line.as_str())?;
    }
    Ok(text)
}

// The line that reports that no try of a change committed. It names a script's first change 1, as a
// schedule does.
fn change_line(alloc: Global, number: usize) -> Result<String, AllocError>
    ensures { IfOk result (λ s. string_bytes s ≡ change_line (number + 1)) }
{
    // In 128 bits, since nothing bounds the numbers of the list.
    let told = number as u128 + 1;
    format!(in alloc; "change {told} conflicts\n")
}

// The lines of the changes, in their order.
fn change_lines(alloc: Global, unfinished: &[usize]) -> Result<String, AllocError>
    ensures { IfOk result (λ s. string_bytes s ≡ change_lines unfinished.now) }
{
    let mut text = String::new(alloc);
    for number in unfinished {
        let line = change_line(alloc, *number)?;
        text.push_str(line.as_str())?;
    }
    Ok(text)
}

// The lines that report what a run left undone.
fn undone_lines(alloc: Global, ran: &Ran) -> Result<String, AllocError>
    ensures { IfOk result (λ s. string_bytes s ≡ undone_lines ran.now) }
{
    let mut text = worker_lines(alloc, &ran.refusals)?;
    let changes = change_lines(alloc, &ran.unfinished)?;
    text.push_str(changes.as_str())?;
    Ok(text)
}

// The lines that report a fault.
fn lines_of(alloc: Global, fault: &Fault) -> Result<String, AllocError>
    ensures { IfOk result (λ s. string_bytes s ≡ fault_lines fault.now) }
{
    match fault {
        Fault::File(fault) => format!(in alloc; "{fault}\n"),
        Fault::Run(fault) => format!(in alloc; "{fault}\n"),
        Fault::Undone(ran) => undone_lines(alloc, ran),
    }
}

// Writes that memory was refused. It takes none itself, and asks for the refused growth, so that it is written of no
// other fault.
fn tell_refused_growth<E: Sink>(_refused: NoMemory, err: &mut E)
    requires unfailed { E.failed err.old ≡ false }
    ensures { SaysLines (codes "no memory\n") (taking E.taken E.failed err.old err.new) }
{
    let _ = err.write_all(b"no memory\n");
}

/// Prints a fault, or that there is no memory for its lines, which takes none itself. If even that
/// can't be written, only the status shows it.
pub fn tell<E: Sink>(alloc: Global, fault: &Fault, err: &mut E)
    requires unfailed { E.failed err.old ≡ false }
    ensures { Tells fault.now (taking E.taken E.failed err.old err.new) }
{
    match lines_of(alloc, fault) {
        Ok(lines) => {
            let _ = err.write_all(lines.as_bytes());
        }
        Err(refused) => tell_refused_growth(NoMemory::from(refused), err),
    }
}
