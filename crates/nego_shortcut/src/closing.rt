//! When a work may be closed, and the closing.
ghost use Rattle.std.specs.Prelude.{◌≡◌, ◌≢◌, ◌<◌, ◌≤◌, IfSome, Some, is_some, length, option_map, find, ◌==◌};
ghost use Rattle.std.specs.Option.{option_copied};
ghost use Rattle.nego_expr.specs.Work.{IsWork, outcomes_at};
ghost use Rattle.nego_expr.specs.Edits.{then_each, without_atom};
ghost use Rattle.nego_expr.specs.Use.{Close, allows, closes, opening_outcome};
ghost use Rattle.nego_expr.specs.Made.{IsMade};
ghost use Rattle.nego_expr.specs.WorkView.{plain_outcome};

use nego_base::{AgentSet, AtomId, NodeId};
use nego_expr::{Outcome, RuleFault, Work};

/// Whether the work may be closed: exactly the first and the last atom are left, they differ, the first has one
/// outcome, and it sends every agent to the last.
pub fn can_close(w: &Work) -> bool
    requires work { IsWork w.now.plain }
    ensures { result ≡ allows w.now.plain Close }
{
    closing_outcome(w).is_some()
}

/// The first atom's outcome, where the work may be closed by it.
fn closing_outcome(w: &Work) -> Option<&Outcome>
    requires work { IsWork w.now.plain }
    ensures found { IfSome result (λ x. opening_outcome w.now.plain ≡ Some (plain_outcome x.now)) }
    ensures allowed { is_some result ≡ allows w.now.plain Close }
{
    let x = opening_outcome(w)?;
    if !closes(w, x) {
        return None;
    }
    Some(x)
}

/// The least outcome of the first atom.
fn opening_outcome(w: &Work) -> Option<&Outcome>
    ensures { option_map (λ x. plain_outcome x.now) result ≡ opening_outcome w.now.plain }
{
    first_of(w.outcomes(), w.first())
}

/// The first of the outcomes that is of the atom.
fn first_of(outcomes: &[Outcome], n: AtomId) -> Option<&Outcome>
    ensures { option_copied result ≡ find (λ x. x.atom.0 == n.0) outcomes.now }
{
    outcomes.iter().find(|x| x.atom == n)
}

/// Whether exactly the first and the last atom are left, they differ, and the outcome is the only one of the first and
/// sends every agent to the last.
fn closes(w: &Work, x: &Outcome) -> bool
    requires work { IsWork w.now.plain }
    ensures { result ≡ closes w.now.plain (plain_outcome x.now) }
{
    w.left().count() == 2
        && w.first() != w.last()
        && w.count_of(w.first()) == 1
        && x.sends_all(AgentSet::below(w.agents()), w.last())
}

/// Closes the work: each outcome of the last atom has the first's outcome put before it; the first atom and its outcome
/// are gone, and the last atom is also the first.
pub fn close(w: &mut Work) -> Result<(), RuleFault>
    requires work { IsWork w.old.plain }
    ensures { IsMade Close w.old.plain w.new.plain result }
{
    let Some(x) = closing_outcome(w) else {
        return Err(RuleFault::Guard);
    };
    let node = x.node;
    w.room(w.count_of(w.last()), 0)?;
    leave_last(w, node);
    Ok(())
}

/// The last atom is left alone, with a node put before that of each of its outcomes, for which there is room.
fn leave_last(w: &mut Work, x: NodeId)
    requires work { IsWork w.old.plain }
    requires apart { w.old.plain.first ≢ w.old.plain.last }
    requires there { x.0 < length w.old.plain.nodes }
    requires spare { length (outcomes_at w.old.plain w.old.plain.last) ≤ w.old.spare_nodes }
    ensures { w.new.plain ≡ then_each x.0 w.old.plain.last (record (without_atom w.old.plain.first w.old.plain) { first = w.old.plain.last }) }
{
    let first = w.first();
    let last = w.last();
    w.drop_atom(first);
    w.set_first(last);
    w.then_each(x, last);
}
