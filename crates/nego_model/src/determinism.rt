//! Whether a diagram is deterministic.
ghost use Rattle.std.specs.Prelude.{ℕ, ◌<◌, ◌≤◌, length, IfSome, IfNone};
ghost use Rattle.nego_model.specs.Negotiation.{IsDeterministic};
ghost use Rattle.nego_model.specs.Diagram.{IsDiagram, negotiation_of, nexts_of};
ghost use Rattle.nego_model.specs.Undetermined.{IsFirstUndetermined};

use crate::Diagram;
use nego_base::{AgentId, OutcomeId};

impl Diagram {
    /// The least outcome, and the least agent after it, with two next atoms or more; `None` where the diagram is
    /// deterministic. It takes no memory.
    pub fn first_undetermined(&self) -> Option<(OutcomeId, AgentId)>
        ensures some { IfSome result (λ pair. IsFirstUndetermined self.now pair.0.0 pair.1.0) }
        ensures none { IfNone result (IsDeterministic (negotiation_of self.now)) }
        ensures exact { IfSome result (λ _. IsDeterministic (negotiation_of self.now) → ⊥) }
        ensures diagram { IsDiagram self.now }
    {
        for o in 0..self.outcomes() {
            let o = OutcomeId(o);
            if let Some(a) = self.undetermined_after(o) {
                return Some((o, a));
            }
        }
        None
    }

    /// The least agent with two next atoms or more after the outcome.
    fn undetermined_after(&self, o: OutcomeId) -> Option<AgentId>
        requires { o.0 < length self.now.outcomes }
        ensures agent { IfSome result (λ a. a.0 < length self.now.agents) }
        ensures two { IfSome result (λ a. 1 < length (nexts_of self.now o.0 a.0)) }
        ensures least { IfSome result (λ a. (b : ℕ) → b < a.0 → length (nexts_of self.now o.0 b) ≤ 1) }
        ensures none { IfNone result ((b : ℕ) → b < length self.now.agents → length (nexts_of self.now o.0 b) ≤ 1) }
    {
        for a in 0..self.agents() {
            let a = AgentId(a);
            if self.nexts(o, a).count() > 1 {
                return Some(a);
            }
        }
        None
    }
}
