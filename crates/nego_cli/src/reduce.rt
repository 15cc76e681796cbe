//! `reduce`: the reduction of a diagram.

ghost use Rattle.std.specs.Prelude.{[], IfOk, IfErr};
ghost use Rattle.nego_cli.specs.Turn.{TellsText};
ghost use Rattle.nego_cli.specs.Dispatch.{HasNoText};
ghost use Rattle.nego_cli.specs.Reduce.{ReduceTurn, ReduceText};

use crate::answer::Answer;
use crate::certificate::print_reduction;
use crate::failure::Failure;
use crate::reduction::{fresh_work, reduction};
use nego_base::Steps;
use nego_model::Diagram;
use std::alloc::Global;
use std::sync::ledger::Ledger;

/// Reduces the diagram.
pub(crate) fn reduce<C: Ledger>(
    alloc: Global,
    d: Diagram,
    steps: &mut Steps<C>,
) -> Result<Answer, Failure>
    ensures turn { IfOk result (λ _. ReduceTurn d [] TellsText) }
    ensures ok { IfOk result (λ answer. ReduceText d [] answer.status answer.text) }
    ensures err { IfErr result (HasNoText (ReduceTurn d) []) }
{
    let (diagram, work) = fresh_work(alloc, d)?;
    let (reduced, verdict) = reduction(alloc, &diagram, work, steps)?;
    let text = print_reduction(alloc, &diagram, &reduced, verdict)?;
    Ok(Answer {
        status: verdict.status(),
        text,
    })
}
