//! The edges between the atoms of a diagram.
ghost use Rattle.std.specs.Prelude.{◌≡◌, ℕ, ◌<◌, false, true, length, IsTrue, ◌↔◌};
ghost use Rattle.nego_base.specs.Members.{is_in};
ghost use Rattle.nego_model.specs.Diagram.{negotiation_of, nexts_of};
ghost use Rattle.nego_model.specs.Acyclic.{IsEdge};

use nego_base::{AgentId, AtomId, AtomSet, OutcomeId};
use nego_model::Diagram;

/// The predecessors of an atom: those from which an edge leads to it.
pub(crate) fn before(d: &Diagram, n: AtomId) -> AtomSet
    requires { n.0 < length d.now.atoms }
    ensures { (m : ℕ) → IsTrue (is_in m result) ↔ IsEdge (negotiation_of d.now) m n.0 }
{
    let mut found = AtomSet::none();
    for o in 0..d.outcomes() {
        let o = OutcomeId(o);
        if leads(d, o, n) {
            found = found.with(d.atom_of(o));
        }
    }
    found
}

/// Whether some agent has the atom as a next atom after the outcome.
fn leads(d: &Diagram, o: OutcomeId, n: AtomId) -> bool
    requires outcome { o.0 < length d.now.outcomes }
    requires atom { n.0 < length d.now.atoms }
    ensures some { result ≡ true → (a : ℕ) × IsTrue (is_in n.0 (nexts_of d.now o.0 a)) }
    ensures none { result ≡ false → (a : ℕ) → a < length d.now.agents → is_in n.0 (nexts_of d.now o.0 a) ≡ false }
{
    for a in 0..d.agents() {
        if d.nexts(o, AgentId(a)).has(n) {
            return true;
        }
    }
    false
}
