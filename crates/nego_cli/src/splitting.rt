//! Splits the words of a call into a command's name and the words behind it.

ghost use Rattle.std.specs.Prelude.{◌≡◌, ◌≢◌, ◌≤◌, [], IfOk, IfErr, map, false, true};
ghost use Rattle.clap.specs.Words.{app_of, fault_of, shape_of, subcommand_of, subcommand_rows_of};
ghost use Rattle.clap.specs.declared.builder.command.Command.TheViews.{out-Command as fields_of};
ghost use Rattle.nego_cli.specs.CommandLine.{command_line, program, with_numbers};

use crate::WordsAnswer;
use clap::error::ErrorKind;
use clap::{Arg, ArgAction, ArgMatches, Command};
use std::alloc::{AllocError, Global};

/// The command of this name, which takes so many words behind it.
fn with_numbers<'a>(
    alloc: Global,
    name: &'a str,
    fewest: usize,
    most: usize,
) -> Result<Command<'a>, AllocError>
    requires { fewest ≤ most }
    ensures shape { IfOk result (λ c. shape_of c ≡ with_numbers name.entry.now fewest most) }
    ensures local { IfOk result (λ c. (fields_of c).has_globals ≡ false) }
{
    let numbers = Arg::new(alloc, "numbers")
        .action(ArgAction::Set)
        .num_args(fewest..=most)
        .required(true);
    Command::new(alloc, name).arg(numbers)
}

/// The program, before it has a command.
fn program<'a>(alloc: Global) -> Command<'a>
    ensures { app_of result ≡ program }
{
    Command::new(alloc, "nego")
        .no_binary_name(true)
        .disable_help_flag(true)
        .disable_help_subcommand(true)
        .subcommand_required(true)
}

/// The program with its commands.
fn command_line<'a>(alloc: Global) -> Result<Command<'a>, AllocError>
    ensures { IfOk result (λ c. app_of c ≡ command_line) }
{
    program(alloc)
        .subcommand(Command::new(alloc, "check"))?
        .subcommand(Command::new(alloc, "reduce"))?
        .subcommand(Command::new(alloc, "replay"))?
        .subcommand(with_numbers(alloc, "ask", 1, 16)?)?
        .subcommand(with_numbers(alloc, "run", 1, 16)?)?
        .subcommand(with_numbers(alloc, "node", 3, 18)?)?
        .subcommand(with_numbers(alloc, "make", 1, 1)?)
}

/// The words as the commands split them. `Words` comes where the first is no command, or another count of words stands
/// behind it than the command takes.
pub fn split<'a>(alloc: Global, words: &'a [&'a str]) -> Result<ArgMatches<'a>, WordsAnswer>
    ensures taken { IfOk result (λ m. fault_of command_line (map (λ s. s.now) words.entry.now) ≡ []) }
    ensures split { IfOk result (λ m. subcommand_rows_of m ≡ subcommand_of command_line (map (λ s. s.now) words.entry.now)) }
    ensures refused { IfErr result (λ e. e ≡ WordsAnswer.Words → fault_of command_line (map (λ s. s.now) words.entry.now) ≢ []) }
{
    match command_line(alloc)?.try_get_matches_from(words) {
        Ok(matches) => Ok(matches),
        Err(error) => match error.kind() {
            ErrorKind::OutOfMemory => Err(WordsAnswer::Memory),
            _ => Err(WordsAnswer::Words),
        },
    }
}
