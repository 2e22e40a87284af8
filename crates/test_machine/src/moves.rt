//! Moves of a machine, each in a line.
ghost use Rattle.std.specs.Prelude.{◌≡◌};
ghost use Rattle.pb_vm.specs.declared.moved.MachinePhase.TheVariants.{Going};

use crate::value_in;
use pb_helpers::{Ask, Reply};
use pb_vm::{MachinePhase, Moved, Vm};
use std::alloc::AllocError;

/// Adds the cell that is asked for.
pub fn add_ask(text: &mut String, ask: &Ask) -> Result<(), AllocError> {
    write!(text, " {} {}", ask.row.0, ask.column.number())
}

// Does as many steps as a word names.
fn steps(vm: &mut Vm, word: &str) -> Option<Moved>
    requires { vm.old.phase ≡ Going }
{
    match word {
        "." => Some(vm.step()),
        ">" => Some(vm.follow()),
        _ => {
            let most = word.parse::<u16>().ok()?;
            if most == 0 {
                None
            } else {
                Some(vm.advance(most))
            }
        }
    }
}

// Adds what steps did.
fn add_moved(text: &mut String, moved: Moved) -> Result<(), AllocError> {
    match moved {
        Moved::Went => text.push_str("went"),
        Moved::Asks(ask) => {
            text.push_str("asks")?;
            add_ask(text, &ask)
        }
        Moved::Ended(end) => write!(text, "ended {end}"),
    }
}

// Adds where a machine stands.
fn add_phase(text: &mut String, phase: MachinePhase) -> Result<(), AllocError> {
    match phase {
        MachinePhase::Going => text.push_str("going"),
        MachinePhase::Asking(ask) => {
            text.push_str("asking")?;
            add_ask(text, &ask)
        }
        MachinePhase::Over(end) => write!(text, "over {end}"),
    }
}

// Makes a move, and adds what it did.
fn add_done(text: &mut String, vm: &mut Vm, word: &str) -> Option<()> {
    match vm.phase() {
        MachinePhase::Going => add_moved(text, steps(vm, word)?).ok(),
        MachinePhase::Asking(_) => {
            vm.reply(match value_in(word)? {
                Some(value) => Reply::Found(value),
                None => Reply::Absent,
            });
            text.push_str("replied").ok()
        }
        MachinePhase::Over(_) => None,
    }
}

/// Makes a move, and adds its line.
pub fn add_move(text: &mut String, vm: &mut Vm, word: &str) -> Option<()> {
    write!(text, "{word} -> ").ok()?;
    add_done(text, vm, word)?;
    text.push_str(", ").ok()?;
    add_phase(text, vm.phase()).ok()?;
    writeln!(text, ", {} done", vm.taken()).ok()
}
