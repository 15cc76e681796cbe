//! When an outcome may enter an atom, and the shortcut.
ghost use Rattle.std.specs.Prelude.{◌≡◌, ◌+◌, ◌<◌, ◌≤◌, ◌==◌, ◌&&◌, not, IsTrue, IfSome, Some, is_some, length, map};
ghost use Rattle.nego_base.specs.Members.{is_in};
ghost use Rattle.nego_expr.specs.Work.{IsWork, outcome_at, outcomes_at};
ghost use Rattle.nego_expr.specs.Use.{Shortcut, allows, entered, enters, is_entered};
ghost use Rattle.nego_expr.specs.Made.{IsMade};
ghost use Rattle.nego_expr.specs.WorkView.{plain_outcome};

use crate::through::go_through;
use nego_base::{AtomId, OutcomeId};
use nego_expr::{Outcome, RuleFault, Work};

/// Whether the outcome may enter the atom: it is alive and of another atom; the atom is left, and is neither the first
/// nor the last; its parties are parties of the outcome's atom, and the outcome sends each of them to it.
pub fn can_shortcut(w: &Work, o: OutcomeId, n: AtomId) -> bool
    requires work { IsWork w.now.plain }
    ensures { result ≡ allows w.now.plain (Shortcut o.0 n.0) }
{
    entering_outcome(w, o, n).is_some()
}

/// The outcome of this number, where it may enter the atom. Then the atom's number is one that a set may have.
fn entering_outcome(w: &Work, o: OutcomeId, n: AtomId) -> Option<&Outcome>
    requires work { IsWork w.now.plain }
    ensures found { IfSome result (λ x. outcome_at w.now.plain o.0 ≡ Some (plain_outcome x.now)) }
    ensures allowed { is_some result ≡ allows w.now.plain (Shortcut o.0 n.0) }
    ensures few { IfSome result (λ x. n.0 < 64) }
{
    let x = w.outcome(o)?;
    if !enters(w, x, n) {
        return None;
    }
    Some(x)
}

/// Whether the alive outcome may enter the atom. Then the atom's number is one that a set may have.
pub fn enters(w: &Work, x: &Outcome, n: AtomId) -> bool
    requires work { IsWork w.now.plain }
    requires alive { outcome_at w.now.plain x.now.number.0 ≡ Some (plain_outcome x.now) }
    ensures value { result ≡ enters w.now.plain (plain_outcome x.now) n.0 }
    ensures few { IsTrue result → n.0 < 64 }
{
    x.atom != n
        && is_inner(w, n)
        && w.parties(n).within(w.parties(x.atom))
        && x.sends_all(w.parties(n), n)
}

/// Whether the atom is left, and is neither the first nor the last.
fn is_inner(w: &Work, n: AtomId) -> bool
    ensures value { result ≡ (is_in n.0 (map (λ atom. atom.number) w.now.plain.atoms)
        && (not (n.0 == w.now.plain.first) && not (n.0 == w.now.plain.last))) }
    ensures few { IsTrue result → n.0 < 64 }
{
    w.is_left(n) && n != w.first() && n != w.last()
}

/// Makes a shortcut: the outcome becomes itself and then each outcome of the atom; with the first of these it keeps its
/// number, with the others it has the next numbers. The atom is gone where no outcome of another leads to it any more.
pub fn shortcut(w: &mut Work, o: OutcomeId, n: AtomId) -> Result<(), RuleFault>
    requires work { IsWork w.old.plain }
    ensures { IsMade (Shortcut o.0 n.0) w.old.plain w.new.plain result }
{
    let Some(x) = entering_outcome(w, o, n) else {
        return Err(RuleFault::Guard);
    };
    let x = x.copy();
    let count = w.count_of(n);
    w.room(count, count.saturating_sub(1))?;
    enter(w, &x, n);
    Ok(())
}

/// The outcome enters the atom, for which there is room.
fn enter(w: &mut Work, x: &Outcome, n: AtomId)
    requires work { IsWork w.old.plain }
    requires alive { outcome_at w.old.plain x.now.number.0 ≡ Some (plain_outcome x.now) }
    requires enters { IsTrue (enters w.old.plain (plain_outcome x.now) n.0) }
    requires few { n.0 < 64 }
    requires nodes { length (outcomes_at w.old.plain n.0) ≤ w.old.spare_nodes }
    requires outcomes { length (outcomes_at w.old.plain n.0) ≤ w.old.spare_outcomes + 1 }
    ensures { w.new.plain ≡ entered w.old.plain (plain_outcome x.now) n.0 }
{
    go_through(w, x, n);
    if !is_entered(w, n) {
        w.drop_atom(n);
    }
}

/// Whether an outcome of another atom leads to the atom, which is left.
fn is_entered(w: &Work, n: AtomId) -> bool
    requires left { IsTrue (is_in n.0 (map (λ atom. atom.number) w.now.plain.atoms)) }
    ensures { result ≡ is_entered w.now.plain n.0 }
{
    w.entered_by(n) > 0
}
