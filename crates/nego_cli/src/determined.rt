//! Diagrams that have to be deterministic.

ghost use Rattle.std.specs.Prelude.{◌≡◌, IfOk, IfErr, OnOk};
ghost use Rattle.nego_model.specs.Negotiation.{IsDeterministic};
ghost use Rattle.nego_model.specs.Diagram.{negotiation_of};
ghost use Rattle.nego_cli.specs.Dispatch.{IsRefusedFor};
ghost use Rattle.nego_cli.specs.Reduce.{IsUndetermined};

use crate::failure::{Failure, Refusal};
use nego_model::Diagram;
use nego_shape::determined;

/// The diagram, where it is deterministic.
pub(crate) fn deterministic(d: Diagram) -> Result<Diagram, Failure>
    ensures same { IfOk result (λ same. same ≡ d) }
    ensures ok { OnOk result (IsDeterministic (negotiation_of d)) }
    ensures err { IfErr result (IsRefusedFor (IsUndetermined d)) }
{
    match determined(&d) {
        Ok(()) => Ok(d),
        Err((o, a)) => Err(Failure::Refused(Refusal::Undetermined(d, o, a))),
    }
}
