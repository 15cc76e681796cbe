//! Alive outcomes of a work.
ghost use Rattle.std.specs.Prelude.{◌≡◌, ◌<◌, IfSome, option_map};
ghost use Rattle.nego_expr.specs.Counts.{AreEntered};
ghost use Rattle.nego_expr.specs.Sorted.{without_targets};
ghost use Rattle.nego_expr.specs.Work.{sent_to};
ghost use Rattle.nego_expr.specs.Use.{send_alike, sends_all};
ghost use Rattle.nego_expr.specs.WorkView.{plain_outcome};

use crate::Targets;
use nego_base::{AgentId, AgentSet, AtomId, AtomSet, NodeId, OutcomeId};

/// An alive outcome: its number, its atom, where it sends the agents, the node of its expression, and the atoms that
/// it passed.
#[derive(Debug, Drop)]
pub struct Outcome {
    pub number: OutcomeId,
    pub atom: AtomId,
    pub targets: Targets,
    pub node: NodeId,
    pub passed: AtomSet,
}

impl Outcome {
    /// The same outcome once more.
    pub fn copy(&self) -> Outcome
        ensures { plain_outcome result ≡ plain_outcome self.now }
    {
        Outcome {
            targets: self.targets.copy(),
            ..*self
        }
    }

    /// The same outcome, without its targets.
    pub(crate) fn without_targets(&self) -> Outcome
        ensures { plain_outcome result ≡ without_targets (plain_outcome self.now) }
    {
        Outcome {
            targets: Targets::none(0),
            ..*self
        }
    }

    /// Where it sends the agent.
    pub fn target(&self, a: AgentId) -> Option<AtomId>
        ensures value { option_map (λ n. n.0) result ≡ sent_to (plain_outcome self.now) a.0 }
        ensures bound { IfSome result (λ n. n.0 < 255) }
    {
        self.targets.entry(a)
    }

    /// Whether it sends each of the agents to the atom.
    pub fn sends_all(&self, agents: AgentSet, n: AtomId) -> bool
        ensures { result ≡ sends_all agents n.0 (plain_outcome self.now) }
    {
        match agents.least() {
            Some(a) => self.target(a) == Some(n) && self.sends_all(agents.without(a), n),
            None => true,
        }
    }

    /// The other atoms to which it sends agents, of those that a set may have.
    pub(crate) fn entered(&self) -> AtomSet
        ensures { AreEntered (plain_outcome self.now) result }
    {
        self.targets.others(self.atom)
    }

    /// Whether it and the other send each of the agents to the same atom.
    pub fn sends_alike(&self, other: &Outcome, agents: AgentSet) -> bool
        ensures { result ≡ send_alike agents (plain_outcome self.now) (plain_outcome other.now) }
    {
        match agents.least() {
            Some(a) => self.target(a) == other.target(a)
                && self.sends_alike(other, agents.without(a)),
            None => true,
        }
    }
}
