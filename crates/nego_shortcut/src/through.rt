//! An outcome that enters an atom becomes itself and then each of the atom's outcomes.
ghost use Rattle.std.specs.Prelude.{◌≡◌, ◌≢◌, ℕ, ◌+◌, ◌<◌, ◌≤◌, if◌then◌else◌, false, Some, None, IsTrue, length, map, slice_index_or};
ghost use Rattle.std.specs.List.{range_with_len};
ghost use Rattle.nego_base.specs.Members.{is_in};
ghost use Rattle.nego_expr.specs.Work.{IsWork, outcome_at, outcomes_at, sent_to};
ghost use Rattle.nego_expr.specs.Use.{enters, gone_through, targets_through};
ghost use Rattle.nego_expr.specs.WorkView.{plain_outcome};
ghost use Rattle.nego_shortcut.specs.Passing.{MayPass, passed_one};

use nego_base::{AgentId, AgentSet, AtomId, OutcomeId};
use nego_expr::{Node, Outcome, Targets, Work};

/// The outcome has become itself and then each of the atom's, for which there is room.
pub(crate) fn go_through(w: &mut Work, x: &Outcome, n: AtomId)
    requires work { IsWork w.old.plain }
    requires alive { outcome_at w.old.plain x.now.number.0 ≡ Some (plain_outcome x.now) }
    requires enters { IsTrue (enters w.old.plain (plain_outcome x.now) n.0) }
    requires few { n.0 < 64 }
    requires nodes { length (outcomes_at w.old.plain n.0) ≤ w.old.spare_nodes }
    requires outcomes { length (outcomes_at w.old.plain n.0) ≤ w.old.spare_outcomes + 1 }
    ensures { w.new.plain ≡ gone_through w.old.plain n.0 (plain_outcome x.now) (outcomes_at w.old.plain n.0) }
{
    let mut is_first = true;
    let mut from = OutcomeId(0);
    while let Some(y) = w.next_of(n, from) {
        let y = y.copy();
        pass(w, x, &y, n, is_first);
        is_first = false;
        from = OutcomeId(y.number.0 + 1);
    }
}

/// The outcome has become itself and then the first of the atom's, or it and then another of the atom's is one more.
fn pass(w: &mut Work, x: &Outcome, y: &Outcome, n: AtomId, is_first: bool)
    requires pass { MayPass w.old.plain n.0 (plain_outcome x.now) (plain_outcome y.now) }
    requires few { n.0 < 64 }
    requires spare { 0 < w.old.spare_nodes }
    requires number { is_first ≡ false → 0 < w.old.spare_outcomes }
    ensures plain { w.new.plain ≡ passed_one w.old.plain n.0 (plain_outcome x.now) (plain_outcome y.now) is_first }
    ensures nodes { w.old.spare_nodes ≤ w.new.spare_nodes + 1 }
    ensures outcomes { w.old.spare_outcomes ≤ w.new.spare_outcomes + (if is_first then 0 else 1) }
{
    let targets = targets_through(w, x, y, n);
    let passed = x.passed.with(n);
    let node = w.add_node(Node::Then(x.node, y.node));
    if is_first {
        w.set_outcome(x.number, targets, node, passed);
    } else {
        w.add_outcome(x.atom, targets, node, passed);
    }
}

/// Where the agents are sent by an outcome that enters an atom and then by an outcome of it.
fn targets_through(w: &Work, x: &Outcome, y: &Outcome, n: AtomId) -> Targets
    requires pass { MayPass w.now.plain n.0 (plain_outcome x.now) (plain_outcome y.now) }
    ensures { result ≡ targets_through w.now.plain n.0 (plain_outcome x.now) (plain_outcome y.now) }
{
    let mut targets = x.targets.copy();
    redirect(&mut targets, w.agents(), w.parties(n), y);
    targets
}

/// Sends these parties, of so many agents, where the outcome sends them.
fn redirect(targets: &mut Targets, agents: u32, parties: AgentSet, y: &Outcome)
    requires few { agents ≤ 16 }
    requires fit { length targets.old ≡ agents }
    requires leads { (a : ℕ) → IsTrue (is_in a parties) → sent_to (plain_outcome y.now) a ≢ None }
    ensures { targets.new ≡ map (λ a. if is_in a parties then sent_to (plain_outcome y.now) a else slice_index_or targets.old a None) (range_with_len 0 agents) }
{
    for a in 0..agents {
        if parties.has(AgentId(a)) {
            targets.set(AgentId(a), y.target(AgentId(a)).unwrap());
        }
    }
}
