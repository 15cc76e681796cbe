//! What one asks of a diagram with numbers that may be anything.
ghost use Rattle.std.specs.Prelude.{◌≡◌, ◌<◌, length, IsTrue};
ghost use Rattle.nego_base.specs.Members.{is_in};
ghost use Rattle.nego_model.specs.Diagram.{IsDiagram, parties_of, outcomes_from};

use nego_base::{AgentId, AgentSet, AtomId, OutcomeId};
use nego_model::Diagram;

/// Whether the agent is a party of the atom.
pub(crate) fn is_party(d: &Diagram, n: AtomId, p: AgentId) -> bool
    ensures value { result ≡ is_in p.0 (parties_of d.now n.0) }
    ensures atom { IsTrue result → n.0 < length d.now.atoms }
    ensures agent { IsTrue result → p.0 < length d.now.agents }
    ensures few { IsTrue result → p.0 < 16 }
    ensures diagram { IsDiagram d.now }
{
    if n.0 >= d.atoms() || p.0 >= d.agents() {
        return false;
    }
    d.parties(n).has(p)
}

/// Whether the outcome is one of the atom's.
pub(crate) fn is_outcome(d: &Diagram, n: AtomId, o: OutcomeId) -> bool
    ensures value { result ≡ is_in o.0 (outcomes_from 0 d.now.outcomes n.0) }
    ensures atom { IsTrue result → n.0 < length d.now.atoms }
    ensures outcome { IsTrue result → o.0 < length d.now.outcomes }
    ensures diagram { IsDiagram d.now }
{
    if o.0 >= d.outcomes() {
        return false;
    }
    d.atom_of(o) == n
}

/// Whether the agent is one of these.
pub(crate) fn is_member(agents: AgentSet, p: AgentId) -> bool
    ensures { result ≡ is_in p.0 agents }
{
    if agents.count() == 0 || p.0 >= 16 {
        return false;
    }
    agents.has(p)
}
