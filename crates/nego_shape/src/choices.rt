//! Whether a diagram is deterministic.
ghost use Rattle.std.specs.Prelude.{IfErr, OnOk};
ghost use Rattle.nego_model.specs.Negotiation.{IsDeterministic};
ghost use Rattle.nego_model.specs.Diagram.{IsDiagram, negotiation_of};
ghost use Rattle.nego_model.specs.Undetermined.{IsFirstUndetermined};

use nego_base::{AgentId, OutcomeId};
use nego_model::Diagram;

/// Whether the diagram is deterministic. Where it isn't, the least outcome, and the least agent after it, with two
/// next atoms or more. It takes no memory.
pub fn determined(d: &Diagram) -> Result<(), (OutcomeId, AgentId)>
    ensures ok { OnOk result (IsDeterministic (negotiation_of d.now)) }
    ensures err { IfErr result (λ pair. IsFirstUndetermined d.now pair.0.0 pair.1.0) }
    ensures exact { IfErr result (λ _. IsDeterministic (negotiation_of d.now) → ⊥) }
    ensures diagram { IsDiagram d.now }
{
    match d.first_undetermined() {
        Some(pair) => Err(pair),
        None => Ok(()),
    }
}
