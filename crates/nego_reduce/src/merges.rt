//! The least merge.

ghost use Rattle.std.specs.Prelude.{◌≡◌, ◌≢◌, ◌↔◌, ⊤, ℕ, Some, false, IsTrue, IfSome, IfNone, map, option_map};
ghost use Rattle.std.specs.Option.{MatchOption};
ghost use Rattle.nego_expr.specs.Work.{IsWork, outcome_at};
ghost use Rattle.nego_expr.specs.WorkView.{plain_outcome};
ghost use Rattle.nego_expr.specs.Sorted.{plain_slot};
ghost use Rattle.nego_expr.specs.Use.{Merge, allows};
ghost use Rattle.nego_reduce.specs.Changed.{MayOffer};
ghost use Rattle.nego_reduce.specs.Order.{IsLeastMerge, IsPairBelow, HasNoMerge};
ghost use Rattle.nego_reduce.specs.Twins.{AreTwins, StandAt, NoneStandAt};

use nego_base::OutcomeId;
use nego_expr::{Outcome, Slot, Work, place_of_slot};

/// Whether the two slots are of one atom, which isn't the last, and have the same targets.
fn are_twins(w: &Work, s: &Slot, t: &Slot) -> bool
    ensures { IsTrue result ↔ AreTwins w.now.plain.last (plain_slot s.now) (plain_slot t.now) }
{
    if s.atom != t.atom {
        return false;
    }
    if s.atom == w.last() {
        return false;
    }
    s.targets.compare(&t.targets).is_eq()
}

/// Whether the pair is below the least one so far.
fn is_below(o1: OutcomeId, o2: OutcomeId, least: Option<(OutcomeId, OutcomeId)>) -> bool
    ensures { IsTrue result ↔ MatchOption least ⊤ (λ pair. IsPairBelow o1.0 o2.0 pair.0.0 pair.1.0) }
{
    match least {
        Some((p1, p2)) => o1 < p1 || (o1 == p1 && o2 < p2),
        None => true,
    }
}

/// The outcomes of the slots at the place and the next one, where they are twins.
fn twins_at(w: &Work, slots: &[Slot], i: usize) -> Option<(OutcomeId, OutcomeId)>
    ensures some { IfSome result (λ pair. StandAt w.now.plain.last (map plain_slot slots.now) i pair.0.0 pair.1.0) }
    ensures none { IfNone result (NoneStandAt w.now.plain.last (map plain_slot slots.now) i) }
{
    let s = slots.get(i)?;
    let t = slots.get(i + 1)?;
    if !are_twins(w, s, t) {
        return None;
    }
    Some((s.outcome, t.outcome))
}

/// The least merge of the outcome, where no two others may be merged. It merges with a neighbour in the sorted list.
fn least_of(w: &Work, x: &Outcome) -> Option<(OutcomeId, OutcomeId)>
    requires work { IsWork w.now.plain }
    requires alive { outcome_at w.now.plain x.now.number.0 ≡ Some (plain_outcome x.now) }
    requires others { (p q : ℕ) → p ≢ x.now.number.0 → q ≢ x.now.number.0 → allows w.now.plain (Merge p q) ≡ false }
    ensures some { IfSome result (λ pair. IsLeastMerge w.now.plain pair.0.0 pair.1.0) }
    ensures none { IfNone result (HasNoMerge w.now.plain) }
{
    let slots = w.sorted();
    let i = place_of_slot(slots, x);
    if i > 0 {
        if let Some(pair) = twins_at(w, slots, i - 1) {
            return Some(pair);
        }
    }
    twins_at(w, slots, i)
}

/// The least merge. Of the outcomes that merge with each other, the sorted list has the least two next to each other, so
/// no guard is tested.
fn least_of_all(w: &Work) -> Option<(OutcomeId, OutcomeId)>
    requires work { IsWork w.now.plain }
    ensures some { IfSome result (λ pair. IsLeastMerge w.now.plain pair.0.0 pair.1.0) }
    ensures none { IfNone result (HasNoMerge w.now.plain) }
{
    let slots = w.sorted();
    let mut least = None;
    for i in 1..slots.len() {
        let (s, t) = (&slots[i - 1], &slots[i]);
        if are_twins(w, s, t) && is_below(s.outcome, t.outcome, least) {
            least = Some((s.outcome, t.outcome));
        }
    }
    least
}

/// The least merge, where no two outcomes but for the changed one may be merged.
pub(crate) fn least_merge(w: &Work, changed: Option<&Outcome>) -> Option<(OutcomeId, OutcomeId)>
    requires work { IsWork w.now.plain }
    requires alive { IfSome changed (λ x. outcome_at w.now.plain x.now.number.0 ≡ Some (plain_outcome x.now)) }
    requires known { MayOffer w.now.plain (option_map (λ x. x.now.number.0) changed) }
    ensures some { IfSome result (λ pair. IsLeastMerge w.now.plain pair.0.0 pair.1.0) }
    ensures none { IfNone result (HasNoMerge w.now.plain) }
{
    match changed {
        Some(x) => least_of(w, x),
        None => least_of_all(w),
    }
}
