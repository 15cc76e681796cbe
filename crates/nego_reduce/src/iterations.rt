//! The least iteration.

ghost use Rattle.std.specs.Prelude.{◌≡◌, ◌≢◌, ◌≤◌, ◌+◌, ℕ, Some, false, IfSome, IfNone, length, option_map};
ghost use Rattle.nego_expr.specs.Use.{Iterate, allows};
ghost use Rattle.nego_expr.specs.Work.{IsWork, outcome_at};
ghost use Rattle.nego_expr.specs.WorkView.{plain_outcome};
ghost use Rattle.nego_reduce.specs.Changed.{MayOffer};
ghost use Rattle.nego_reduce.specs.Order.{IsLeastIteration, HasNoIteration};

use nego_base::{OutcomeId, Steps};
use nego_expr::{Outcome, Work};
use nego_iterate::can_iterate;
use std::sync::ledger::Ledger;

/// The least iteration. The guard of each outcome up to it is tested.
fn least_of_all<C: Ledger>(w: &Work, steps: &mut Steps<C>) -> Option<OutcomeId>
    requires work { IsWork w.now.plain }
    ensures some { IfSome result (λ o. IsLeastIteration w.now.plain o.0) }
    ensures none { IfNone result (HasNoIteration w.now.plain) }
    ensures later { steps.old ≤ steps.new }
    ensures tests { steps.new ≤ steps.old + length w.now.plain.outcomes }
{
    for x in w.outcomes() {
        steps.tick();
        if can_iterate(w, x.number) {
            return Some(x.number);
        }
    }
    None
}

/// The iteration of the outcome, where no other may be iterated.
fn least_of<C: Ledger>(w: &Work, x: &Outcome, steps: &mut Steps<C>) -> Option<OutcomeId>
    requires work { IsWork w.now.plain }
    requires alive { outcome_at w.now.plain x.now.number.0 ≡ Some (plain_outcome x.now) }
    requires others { (p : ℕ) → p ≢ x.now.number.0 → allows w.now.plain (Iterate p) ≡ false }
    ensures some { IfSome result (λ o. IsLeastIteration w.now.plain o.0) }
    ensures none { IfNone result (HasNoIteration w.now.plain) }
    ensures later { steps.old ≤ steps.new }
    ensures tests { steps.new ≤ steps.old + length w.now.plain.outcomes }
{
    steps.tick();
    if !can_iterate(w, x.number) {
        return None;
    }
    Some(x.number)
}

/// The least iteration, where none but the changed outcome may be iterated.
pub(crate) fn least_iteration<C: Ledger>(
    w: &Work,
    changed: Option<&Outcome>,
    steps: &mut Steps<C>,
) -> Option<OutcomeId>
    requires work { IsWork w.now.plain }
    requires alive { IfSome changed (λ x. outcome_at w.now.plain x.now.number.0 ≡ Some (plain_outcome x.now)) }
    requires known { MayOffer w.now.plain (option_map (λ x. x.now.number.0) changed) }
    ensures some { IfSome result (λ o. IsLeastIteration w.now.plain o.0) }
    ensures none { IfNone result (HasNoIteration w.now.plain) }
    ensures later { steps.old ≤ steps.new }
    ensures tests { steps.new ≤ steps.old + length w.now.plain.outcomes }
{
    match changed {
        Some(x) => least_of(w, x, steps),
        None => least_of_all(w, steps),
    }
}
