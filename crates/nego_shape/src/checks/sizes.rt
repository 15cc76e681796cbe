//! The sizes of agents' data.

ghost use Rattle.std.specs.Prelude.{◌≡◌, ◌<◌, ◌≤◌, [], ◌∷◌, length, map, slice_get, Some, IfOk};
ghost use Rattle.nego_data.specs.Sizes.{HasFault};
ghost use Rattle.nego_reader.specs.declared.parsed.PAgent.{PAgent};
ghost use Rattle.nego_shape.specs.Faults.{first_fault};
ghost use Rattle.nego_shape.specs.Conditions.{NoZeroSize, NoLargeSize, NoLargeJoint};

use crate::fault::{ShapeFault, ShapeKind};
use crate::sizing::numbers_of;
use nego_base::{AgentId, Memory};
use nego_data::{SizeFault, Sizes};
use nego_reader::Parsed;
use std::alloc::Global;

/// The first fault of sizes.
pub(crate) fn size_fault(alloc: Global, p: &Parsed) -> Result<Option<ShapeFault>, Memory>
    requires some_agent { 0 < length p.now.agents }
    requires few_agents { length p.now.agents ≤ 16 }
    ensures { IfOk result (λ fault. fault ≡ first_fault (NoZeroSize ∷ NoLargeSize ∷ NoLargeJoint ∷ []) p.now) }
{
    let sizes = numbers_of(alloc, p)?;
    match Sizes::new(sizes.as_slice()) {
        Ok(_sizes) => Ok(None),
        Err(fault) => Ok(Some(told(p, fault))),
    }
}

/// The fault of shape that the fault of the agents' sizes is.
fn told(p: &Parsed, fault: SizeFault) -> ShapeFault
    requires { HasFault (map (λ agent. agent.size) p.now.agents) fault }
    ensures { first_fault (NoZeroSize ∷ NoLargeSize ∷ NoLargeJoint ∷ []) p.now ≡ Some result }
{
    match fault {
        SizeFault::ZeroSize(a) => fault_of(p, a, ShapeKind::ZeroSize(a)),
        SizeFault::SizeTooLarge(a) => fault_of(p, a, ShapeKind::SizeTooLarge(a)),
        SizeFault::JointTooLarge(a) => fault_of(p, a, ShapeKind::JointTooLarge(a)),
    }
}

/// A fault of the agent, on the agent's line.
fn fault_of(p: &Parsed, a: AgentId, kind: ShapeKind) -> ShapeFault
    requires { a.0 < length p.now.agents }
    ensures { (agent : PAgent) → slice_get p.now.agents a.0 ≡ Some agent → result ≡ record { line = agent.name.line; kind = kind } }
{
    ShapeFault {
        line: p.agents[a.0 as usize].name.line,
        kind,
    }
}
