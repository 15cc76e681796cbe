//! The next use.

ghost use Rattle.std.specs.Prelude.{◌≡◌, ◌≤◌, ◌+◌, ◌*◌, Some, IfSome, IfNone, length, option_map};
ghost use Rattle.nego_expr.specs.Work.{IsWork, outcome_at};
ghost use Rattle.nego_expr.specs.UseView.{plain_use};
ghost use Rattle.nego_expr.specs.WorkView.{plain_outcome};
ghost use Rattle.nego_expr.specs.Made.{IsMade};
ghost use Rattle.nego_reduce.specs.Changed.{MayOffer, entering};
ghost use Rattle.nego_reduce.specs.Order.{IsNextUse, HasNoNextUse};

use crate::iterations::least_iteration;
use crate::merges::least_merge;
use crate::shortcuts::least_shortcut;
use nego_base::{OutcomeId, Steps};
use nego_expr::{Outcome, RuleFault, Use, Work};
use nego_iterate::iterate;
use nego_merge::merge;
use nego_shortcut::{can_close, close, shortcut};
use std::sync::ledger::Ledger;

/// The outcome that makes a shortcut, where the use is one: only this one has new uses behind it.
pub(crate) fn entering(u: Use) -> Option<OutcomeId>
    ensures { option_map (λ o. o.0) result ≡ entering (plain_use u) }
{
    match u {
        Use::Shortcut(o, _) => Some(o),
        _ => None,
    }
}

/// The changed outcome, where its number is given and it is alive.
fn changed_outcome(w: &Work, changed: Option<OutcomeId>) -> Option<&Outcome>
    requires known { MayOffer w.now.plain (option_map (λ o. o.0) changed) }
    ensures alive { IfSome result (λ x. outcome_at w.now.plain x.now.number.0 ≡ Some (plain_outcome x.now)) }
    ensures known { MayOffer w.now.plain (option_map (λ x. x.now.number.0) result) }
{
    w.outcome(changed?)
}

/// The next use, where there is one. Where a changed outcome is given, only this one has new uses: no others are tried.
pub(crate) fn next_use<C: Ledger>(
    w: &Work,
    changed: Option<OutcomeId>,
    steps: &mut Steps<C>,
) -> Option<Use>
    requires work { IsWork w.now.plain }
    requires known { MayOffer w.now.plain (option_map (λ o. o.0) changed) }
    ensures some { IfSome result (λ u. IsNextUse w.now.plain (plain_use u)) }
    ensures none { IfNone result (HasNoNextUse w.now.plain) }
    ensures later { steps.old ≤ steps.new }
    ensures tests { steps.new ≤ steps.old + (17 * length w.now.plain.outcomes + 1) }
{
    let changed = changed_outcome(w, changed);
    if let Some((o1, o2)) = least_merge(w, changed) {
        return Some(Use::Merge(o1, o2));
    }
    if let Some(o) = least_iteration(w, changed, steps) {
        return Some(Use::Iterate(o));
    }
    if let Some((o, n)) = least_shortcut(w, changed, steps) {
        return Some(Use::Shortcut(o, n));
    }
    steps.tick();
    if can_close(w) {
        return Some(Use::Close);
    }
    None
}

/// Makes the use by its rule.
pub(crate) fn make_use(w: &mut Work, u: Use) -> Result<(), RuleFault>
    requires work { IsWork w.old.plain }
    ensures { IsMade (plain_use u) w.old.plain w.new.plain result }
{
    match u {
        Use::Merge(o1, o2) => merge(w, o1, o2),
        Use::Iterate(o) => iterate(w, o),
        Use::Shortcut(o, n) => shortcut(w, o, n),
        Use::Close => close(w),
    }
}
