//! When two outcomes may be merged, and the merge.
ghost use Rattle.std.specs.Prelude.{◌≡◌, ◌<◌, IsTrue, IfSome, Some, is_some};
ghost use Rattle.nego_expr.specs.Work.{IsWork, outcome_at};
ghost use Rattle.nego_expr.specs.Use.{Merge, allows, merged, merges};
ghost use Rattle.nego_expr.specs.Made.{IsMade};
ghost use Rattle.nego_expr.specs.WorkView.{plain_outcome};

use nego_base::OutcomeId;
use nego_expr::{Node, Outcome, RuleFault, Work};

/// Whether the two outcomes may be merged: both are alive, and the first merges with the second.
pub fn can_merge(w: &Work, o1: OutcomeId, o2: OutcomeId) -> bool
    requires work { IsWork w.now.plain }
    ensures { result ≡ allows w.now.plain (Merge o1.0 o2.0) }
{
    merging_pair(w, o1, o2).is_some()
}

/// The two outcomes of these numbers, where they may be merged.
fn merging_pair(w: &Work, o1: OutcomeId, o2: OutcomeId) -> Option<(&Outcome, &Outcome)>
    requires work { IsWork w.now.plain }
    ensures first { IfSome result (λ pair. outcome_at w.now.plain o1.0 ≡ Some (plain_outcome pair.0.now)) }
    ensures second { IfSome result (λ pair. outcome_at w.now.plain o2.0 ≡ Some (plain_outcome pair.1.now)) }
    ensures allowed { is_some result ≡ allows w.now.plain (Merge o1.0 o2.0) }
{
    let x = w.outcome(o1)?;
    let y = w.outcome(o2)?;
    if !merges(w, x, y) {
        return None;
    }
    Some((x, y))
}

/// Whether the first outcome has the lesser number, and both are of one atom, which isn't the last, and send each of its
/// parties to the same atom.
fn merges(w: &Work, x: &Outcome, y: &Outcome) -> bool
    requires work { IsWork w.now.plain }
    requires alive { outcome_at w.now.plain x.now.number.0 ≡ Some (plain_outcome x.now) }
    ensures { result ≡ merges w.now.plain (plain_outcome x.now) (plain_outcome y.now) }
{
    x.number < y.number
        && x.atom == y.atom
        && x.atom != w.last()
        && x.sends_alike(y, w.parties(x.atom))
}

/// Merges the second outcome into the first, which then has both expressions joined and has passed what either did; the
/// second is gone.
pub fn merge(w: &mut Work, o1: OutcomeId, o2: OutcomeId) -> Result<(), RuleFault>
    requires work { IsWork w.old.plain }
    ensures { IsMade (Merge o1.0 o2.0) w.old.plain w.new.plain result }
{
    let Some((x, y)) = merging_pair(w, o1, o2) else {
        return Err(RuleFault::Guard);
    };
    let (x, y) = (x.copy(), y.copy());
    w.room(1, 0)?;
    join(w, x, y);
    Ok(())
}

/// The two outcomes become one, for which there is room.
fn join(w: &mut Work, x: Outcome, y: Outcome)
    requires work { IsWork w.old.plain }
    requires first { outcome_at w.old.plain x.number.0 ≡ Some (plain_outcome x) }
    requires second { outcome_at w.old.plain y.number.0 ≡ Some (plain_outcome y) }
    requires merges { IsTrue (merges w.old.plain (plain_outcome x) (plain_outcome y)) }
    requires spare { 0 < w.old.spare_nodes }
    ensures { w.new.plain ≡ merged w.old.plain (plain_outcome x) (plain_outcome y) }
{
    let node = w.add_node(Node::Join(x.node, y.node));
    w.drop_outcome(y.number);
    w.set_outcome(x.number, x.targets, node, x.passed.union(y.passed));
}
