//! `check`: the form of a diagram.

ghost use Rattle.std.specs.Prelude.{[], IfOk, IfErr};
ghost use Rattle.nego_cli.specs.Check.{CheckTurn, CheckText};
ghost use Rattle.nego_cli.specs.Dispatch.{HasNoText};
ghost use Rattle.nego_cli.specs.Turn.{TellsText};

use crate::Status;
use crate::answer::Answer;
use crate::failure::Failure;
use crate::form_text::print_form;
use nego_model::Diagram;
use std::alloc::Global;

/// Tells the form of the diagram.
pub(crate) fn check(alloc: Global, d: &Diagram) -> Result<Answer, Failure>
    ensures turn { IfOk result (λ _. CheckTurn d.now [] TellsText) }
    ensures ok { IfOk result (λ answer. CheckText d.now [] answer.status answer.text) }
    ensures err { IfErr result (HasNoText (CheckTurn d.now) []) }
{
    let text = print_form(alloc, d)?;
    Ok(Answer {
        status: Status::Done,
        text,
    })
}
