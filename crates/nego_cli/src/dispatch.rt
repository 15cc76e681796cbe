//! Finds the answer of a command, which is still to be written.

ghost use Rattle.std.specs.Prelude.{◌≡◌, ◌≤◌, Some};
ghost use Rattle.nego_cli.specs.Effect.{effect};
ghost use Rattle.nego_cli.specs.Commands.{asked, most_parts};
ghost use Rattle.nego_cli.specs.Answer.{IsFound};
ghost use Rattle.nego_cli.specs.Dispatch.{IsAnswer};
ghost use Rattle.nego_cli.specs.Make.{HasSize};

use crate::answer::Answer;
use crate::ask::ask;
use crate::check::check;
use crate::failure::Failure;
use crate::load::load;
use crate::make::make;
use crate::reduce::reduce;
use crate::replay::replay;
use crate::run::run;
use crate::{Command, WordsAnswer, words_of};
use nego_base::{Steps, Text};
use nego_io::Source;
use std::alloc::Global;
use std::sync::ledger::Ledger;

/// The answer of the command: one arm for each that is built.
fn answer<S: Source, C: Ledger>(
    alloc: Global,
    command: &Command,
    source: &mut S,
    steps: &mut Steps<C>,
) -> Result<Answer, Failure>
    requires { HasSize command.now }
    ensures found { IsAnswer command.now (effect S.left S.faults source.old source.new) result }
    ensures untouched { most_parts (Some command.now) ≡ 0 → source.new ≡ source.old }
    ensures later { S.faults source.old ≤ S.faults source.new }
{
    match command {
        Command::Check => check(alloc, &load(alloc, source)?),
        Command::Reduce => reduce(alloc, load(alloc, source)?, steps),
        Command::Replay => {
            let d = load(alloc, source)?;
            replay(alloc, d, source)
        }
        Command::Ask(values) => ask(alloc, load(alloc, source)?, values.as_slice(), steps),
        Command::Run(values) => {
            let d = load(alloc, source)?;
            run(alloc, d, values.as_slice(), source)
        }
        Command::Make(n) => make(alloc, *n, steps),
        _ => Err(Failure::Words),
    }
}

/// Finds the answer to the words.
pub(crate) fn find_answer<S: Source, C: Ledger>(
    alloc: Global,
    words: &[Text],
    source: &mut S,
    steps: &mut Steps<C>,
) -> Result<Answer, Failure>
    ensures found { IsFound words.now (effect S.left S.faults source.old source.new) result }
    ensures untouched { most_parts (asked words.now) ≡ 0 → source.new ≡ source.old }
    ensures later { S.faults source.old ≤ S.faults source.new }
{
    match words_of(alloc, words) {
        Ok(command) => answer(alloc, &command, source, steps),
        Err(WordsAnswer::Words) => Err(Failure::Words),
        Err(WordsAnswer::Memory) => Err(Failure::Memory),
    }
}
