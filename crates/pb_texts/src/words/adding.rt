//! A subcommand with one argument more, and a program with one subcommand more. Each takes what may have failed before, so
//! that who adds several calls one after the other. Each `?` with a command alive is a drop more for the prover to follow.
ghost use Rattle.std.specs.Prelude.{◌≡◌, false};
ghost use Rattle.clap.specs.Words.{App, Rule, app_of, rule_of, with_rule, with_subcommand};
ghost use Rattle.pb_texts.specs.Adding.{IsSubcommand, IsApp};
ghost use Rattle.clap.specs.declared.builder.command.Command.TheViews.{out-Command as fields_of};

use clap::{Arg, Command};
use std::alloc::AllocError;

/// The subcommand with this argument.
pub fn with_arg<'a>(
    command: Result<Command<'a>, AllocError>,
    arg: Arg<'a>,
) -> Result<Command<'a>, AllocError>
    requires { arg.global ≡ false }
    ensures { (app : App) (rule : Rule) → IsSubcommand command.entry app → rule_of arg.entry ≡ rule
        → IsSubcommand result (with_rule app rule) }
{
    command?.arg(arg)
}

// The program with this subcommand, for which there was memory.
fn with_built<'a>(
    program: Result<Command<'a>, AllocError>,
    command: Command<'a>,
) -> Result<Command<'a>, AllocError>
    ensures { (app sub : App) → IsApp program.entry app → app_of command.entry ≡ sub
        → (fields_of command.entry).has_globals ≡ false
        → IsApp result (with_subcommand app sub.top) }
{
    program?.subcommand(command)
}

/// The program with this subcommand.
pub fn with_command<'a>(
    program: Result<Command<'a>, AllocError>,
    command: Result<Command<'a>, AllocError>,
) -> Result<Command<'a>, AllocError>
    ensures { (app sub : App) → IsApp program.entry app
        → IsSubcommand command.entry sub
        → IsApp result (with_subcommand app sub.top) }
{
    let command = command?;
    with_built(program, command)
}
