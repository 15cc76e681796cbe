//! When an outcome may be iterated, and the iteration.
ghost use Rattle.std.specs.Prelude.{◌≡◌, ◌≤◌, IfSome, Some, is_some, length};
ghost use Rattle.nego_expr.specs.Work.{IsWork, outcome_at, outcomes_at};
ghost use Rattle.nego_expr.specs.Use.{Iterate, allows, iterated, iterates};
ghost use Rattle.nego_expr.specs.Made.{IsMade};
ghost use Rattle.nego_expr.specs.WorkView.{plain_outcome};

use nego_base::OutcomeId;
use nego_expr::{Node, Outcome, RuleFault, Work};

/// Whether the outcome may be iterated: it is alive, its atom isn't the last and has another outcome, and it sends every
/// party back to its atom.
pub fn can_iterate(w: &Work, o: OutcomeId) -> bool
    requires work { IsWork w.now.plain }
    ensures { result ≡ allows w.now.plain (Iterate o.0) }
{
    iterating_outcome(w, o).is_some()
}

/// The outcome of this number, where it may be iterated.
fn iterating_outcome(w: &Work, o: OutcomeId) -> Option<&Outcome>
    requires work { IsWork w.now.plain }
    ensures found { IfSome result (λ x. outcome_at w.now.plain o.0 ≡ Some (plain_outcome x.now)) }
    ensures allowed { is_some result ≡ allows w.now.plain (Iterate o.0) }
{
    let x = w.outcome(o)?;
    if !iterates(w, x) {
        return None;
    }
    Some(x)
}

/// Whether the outcome sends every party back to its atom, which isn't the last and has another outcome.
fn iterates(w: &Work, x: &Outcome) -> bool
    requires work { IsWork w.now.plain }
    requires alive { outcome_at w.now.plain x.now.number.0 ≡ Some (plain_outcome x.now) }
    ensures { result ≡ iterates w.now.plain (plain_outcome x.now) }
{
    x.atom != w.last() && x.sends_all(w.parties(x.atom), x.atom) && w.count_of(x.atom) > 1
}

/// Iterates the outcome: it is put, any number of times, before each other outcome of its atom, and is gone.
pub fn iterate(w: &mut Work, o: OutcomeId) -> Result<(), RuleFault>
    requires work { IsWork w.old.plain }
    ensures { IsMade (Iterate o.0) w.old.plain w.new.plain result }
{
    let Some(x) = iterating_outcome(w, o) else {
        return Err(RuleFault::Guard);
    };
    let x = x.copy();
    w.room(w.count_of(x.atom), 0)?;
    put_before_others(w, &x);
    Ok(())
}

/// The outcome goes, any number of times, before each other outcome of its atom, for which there is room.
fn put_before_others(w: &mut Work, x: &Outcome)
    requires work { IsWork w.old.plain }
    requires alive { outcome_at w.old.plain x.now.number.0 ≡ Some (plain_outcome x.now) }
    requires spare { length (outcomes_at w.old.plain x.now.atom.0) ≤ w.old.spare_nodes }
    ensures { w.new.plain ≡ iterated w.old.plain (plain_outcome x.now) }
{
    let star = w.add_node(Node::Star(x.node));
    w.drop_outcome(x.number);
    w.then_each(star, x.atom);
}
