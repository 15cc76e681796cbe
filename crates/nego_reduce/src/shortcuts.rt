//! The least shortcut that the order takes.

ghost use Rattle.std.specs.Prelude.{◌≡◌, ◌≤◌, ◌+◌, ◌*◌, ℕ, ◌<◌, Some, IfSome, IfNone, IsTrue, true, false, nat_lt, length, map, option_map, slice_get};
ghost use Rattle.std.specs.Option.{option_map_or};
ghost use Rattle.nego_base.specs.Members.{is_in};
ghost use Rattle.nego_expr.specs.Work.{IsWork, WorkOutcome, outcome_at};
ghost use Rattle.nego_expr.specs.WorkView.{plain_outcome};
ghost use Rattle.nego_reduce.specs.Changed.{MayOffer};
ghost use Rattle.nego_reduce.specs.Order.{IsLeastShortcut, HasNoShortcut, takes_shortcut};

use nego_base::{AgentId, AtomId, OutcomeId, Steps};
use nego_expr::{Outcome, Work};
use nego_shortcut::enters;
use std::sync::ledger::Ledger;

/// Whether the order takes the shortcut of the outcome into an atom that is left. Its guard is tested where the atom has
/// one outcome, and the outcome hasn't passed it.
fn takes_shortcut<C: Ledger>(w: &Work, x: &Outcome, n: AtomId, steps: &mut Steps<C>) -> bool
    requires work { IsWork w.now.plain }
    requires alive { outcome_at w.now.plain x.now.number.0 ≡ Some (plain_outcome x.now) }
    requires left { IsTrue (is_in n.0 (map (λ atom. atom.number) w.now.plain.atoms)) }
    ensures value { result ≡ takes_shortcut w.now.plain x.now.number.0 n.0 }
    ensures later { steps.old ≤ steps.new }
    ensures tests { steps.new ≤ steps.old + 1 }
{
    if w.count_of(n) != 1 {
        return false;
    }
    if !w.left().difference(x.passed).has(n) {
        return false;
    }
    steps.tick();
    enters(w, x, n)
}

/// Whether the atom is below the least one so far.
fn is_below(n: AtomId, least: Option<AtomId>) -> bool
    ensures { result ≡ option_map_or (λ m. nat_lt n.0 m.0) least true }
{
    match least {
        Some(m) => n < m,
        None => true,
    }
}

/// The least atom into which the order takes a shortcut of the outcome. Only atoms to which the outcome sends an agent
/// are tried.
fn least_entry<C: Ledger>(w: &Work, x: &Outcome, steps: &mut Steps<C>) -> Option<AtomId>
    requires work { IsWork w.now.plain }
    requires alive { outcome_at w.now.plain x.now.number.0 ≡ Some (plain_outcome x.now) }
    ensures taken { IfSome result (λ n. IsTrue (takes_shortcut w.now.plain x.now.number.0 n.0)) }
    ensures least { IfSome result (λ n. (m : ℕ) → m < n.0 → takes_shortcut w.now.plain x.now.number.0 m ≡ false) }
    ensures none { IfNone result ((m : ℕ) → takes_shortcut w.now.plain x.now.number.0 m ≡ false) }
    ensures later { steps.old ≤ steps.new }
    ensures tests { steps.new ≤ steps.old + 16 }
{
    let mut least = None;
    for a in 0..w.agents() {
        if let Some(n) = x.target(AgentId(a)) {
            if is_below(n, least) && takes_shortcut(w, x, n, steps) {
                least = Some(n);
            }
        }
    }
    least
}

/// The place of the outcome that is tried first: the changed one, where it is given, since the order takes no shortcut of
/// those before it.
fn first_tried(w: &Work, changed: Option<&Outcome>) -> usize
    requires work { IsWork w.now.plain }
    requires known { MayOffer w.now.plain (option_map (λ y. y.now.number.0) changed) }
    ensures skipped { (i : ℕ) (x : WorkOutcome) → i < result → slice_get w.now.plain.outcomes i ≡ Some x → (m : ℕ) → takes_shortcut w.now.plain x.number m ≡ false }
    ensures within { result ≤ length w.now.plain.outcomes }
{
    let Some(y) = changed else {
        return 0;
    };
    match w
        .outcomes()
        .binary_search_by_key(&y.number.0, |x| x.number.0)
    {
        Ok(i) => i,
        Err(_) => 0,
    }
}

/// The least shortcut that the order takes, where it takes none of an outcome before the changed one.
pub(crate) fn least_shortcut<C: Ledger>(
    w: &Work,
    changed: Option<&Outcome>,
    steps: &mut Steps<C>,
) -> Option<(OutcomeId, AtomId)>
    requires work { IsWork w.now.plain }
    requires known { MayOffer w.now.plain (option_map (λ y. y.now.number.0) changed) }
    ensures some { IfSome result (λ pair. IsLeastShortcut w.now.plain pair.0.0 pair.1.0) }
    ensures none { IfNone result (HasNoShortcut w.now.plain) }
    ensures later { steps.old ≤ steps.new }
    ensures tests { steps.new ≤ steps.old + 16 * length w.now.plain.outcomes }
{
    let outcomes = w.outcomes();
    for i in first_tried(w, changed)..outcomes.len() {
        let x = &outcomes[i];
        if let Some(n) = least_entry(w, x, steps) {
            return Some((x.number, n));
        }
    }
    None
}
