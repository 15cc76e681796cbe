//! The reduction of a diagram, with the verdict on it.

ghost use Rattle.std.specs.Prelude.{◌≡◌, IfOk, IfErr};
ghost use Rattle.nego_expr.specs.StandsFor.{IsFresh, StandsFor};
ghost use Rattle.nego_cli.specs.Reduction.{HasNoWork, IsJudged};

use crate::failure::{Failure, Refusal};
use crate::verdict::{Verdict, verdict_on};
use nego_base::{Memory, Steps};
use nego_expr::{Work, WorkFault};
use nego_model::Diagram;
use nego_reduce::Reduced;
use std::alloc::Global;
use std::sync::ledger::Ledger;

/// The diagram with its fresh work, where it is deterministic.
pub(crate) fn fresh_work(alloc: Global, d: Diagram) -> Result<(Diagram, Work), Failure>
    ensures same { IfOk result (λ pair. pair.0 ≡ d) }
    ensures fresh { IfOk result (λ pair. IsFresh pair.1.plain d) }
    ensures stands { IfOk result (λ pair. StandsFor pair.1.plain d) }
    ensures err { IfErr result (HasNoWork d) }
{
    match Work::new(alloc, &d) {
        Ok(work) => Ok((d, work)),
        Err(WorkFault::NotDeterministic(o, a)) => {
            Err(Failure::Refused(Refusal::Undetermined(d, o, a)))
        }
        Err(WorkFault::Memory) => Err(Failure::Memory),
    }
}

/// What reduction makes of the diagram's fresh work, and the verdict on the diagram.
pub(crate) fn reduction<C: Ledger>(
    alloc: Global,
    d: &Diagram,
    work: Work,
    steps: &mut Steps<C>,
) -> Result<(Reduced, Verdict), Memory>
    requires fresh { IsFresh work.plain d.now }
    requires stands { StandsFor work.plain d.now }
    ensures { IfOk result (λ pair. IsJudged d.now pair.0 pair.1) }
{
    let reduced = nego_reduce::reduce(alloc, work, steps)?;
    let verdict = verdict_on(alloc, d, &reduced)?;
    Ok((reduced, verdict))
}
