//! The reduction of a work.

ghost use Rattle.std.specs.Prelude.{◌≤◌, ◌+◌, length, IfOk};
ghost use Rattle.nego_model.specs.Acyclic.{IsAcyclic};
ghost use Rattle.nego_model.specs.Diagram.{PlainDiagram, negotiation_of};
ghost use Rattle.nego_expr.specs.Work.{IsWork};
ghost use Rattle.nego_expr.specs.StandsFor.{IsFresh};
ghost use Rattle.nego_reduce.specs.Bound.{AreFew, most_tests};
ghost use Rattle.nego_reduce.specs.Reducing.{IsReductionOf, IsDecided, uses_of};

use crate::Reduced;
use crate::next::{entering, make_use, next_use};
use nego_base::{Memory, Steps};
use nego_expr::{RuleFault, Uses, Work};
use std::alloc::Global;
use std::sync::ledger::Ledger;

/// Uses rules in their order, until one atom is left, no use is the next one, or the next use would make too many nodes.
/// Each guard that is tested is one step. The work is one that `Work::new` makes of a diagram.
pub fn reduce<C: Ledger>(
    alloc: Global,
    mut work: Work,
    steps: &mut Steps<C>,
) -> Result<Reduced, Memory>
    requires work { IsWork work.plain }
    ensures reduction { IfOk result (IsReductionOf work.plain) }
    ensures few { IfOk result (λ r. (d : PlainDiagram) → IsFresh work.plain d → AreFew d (uses_of r)) }
    // For an acyclic diagram one atom is left exactly where it is sound, and there is always room for the nodes.
    ensures decided { IfOk result (λ r. (d : PlainDiagram) → IsFresh work.plain d → IsAcyclic (negotiation_of d) → IsDecided d r) }
    ensures counted { IfOk result (λ r. steps.old + length (uses_of r) ≤ steps.new) }
    ensures later { steps.old ≤ steps.new }
    ensures tests { (d : PlainDiagram) → IsFresh work.plain d → IsAcyclic (negotiation_of d) → steps.new ≤ steps.old + most_tests d }
{
    let mut uses = Uses::new(alloc);
    let mut changed = None;
    while let Some(u) = next_use(&work, changed, steps) {
        steps.tick();
        match make_use(&mut work, u) {
            Ok(()) => uses.push(u)?,
            Err(RuleFault::Nodes) => return Ok(Reduced::NodeLimit(work, uses)),
            Err(RuleFault::Memory) => return Err(Memory),
            Err(RuleFault::Guard) => unreachable!(),
        }
        changed = entering(u);
    }
    if work.left().count() > 1 {
        return Ok(Reduced::Stuck(work, uses));
    }
    let summary = work.finish()?;
    Ok(Reduced::One(summary, uses))
}
