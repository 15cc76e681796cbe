//! Uses of rules, and why one isn't made.

ghost use Rattle.std.specs.Prelude.{◌≡◌};

use nego_base::{AgentId, AtomId, Memory, OutcomeId, Seq};
use thiserror::Error;

/// A use of a rule.
#[derive(Clone, Copy, Debug, PartialEq, Eq)]
pub enum Use {
    /// Two outcomes of one atom become one.
    Merge(OutcomeId, OutcomeId),
    /// An outcome that leads back to its atom goes into the others.
    Iterate(OutcomeId),
    /// An atom is entered by an outcome, and becomes part of it.
    Shortcut(OutcomeId, AtomId),
    /// The first atom goes into the last.
    Close,
}

/// Uses of rules in their order.
pub type Uses = Seq<Use>;

/// Why a use of a rule was not made.
#[derive(Clone, Copy, Debug, PartialEq, Eq, Error)]
pub enum RuleFault {
    /// The rule doesn't allow it.
    #[error("the rule does not allow this use")]
    Guard,
    /// There would be more than 20,000 nodes.
    #[error("the use would make more than 20,000 nodes")]
    Nodes,
    /// Want of memory.
    #[error("out of memory")]
    Memory,
}

impl From<Memory> for RuleFault {
    ghost use Rattle.nego_expr.specs.declared.uses.RuleFault.TheVariants as faults;

    ghost from_gives = { λ _ e. e ≡ faults.Memory };

    fn from(_error: Memory) -> RuleFault {
        RuleFault::Memory
    }
}

/// Why a diagram has no work.
#[derive(Clone, Copy, Debug, PartialEq, Eq, Error)]
pub enum WorkFault {
    /// After this outcome this agent has two next atoms or more. It is the least such pair.
    #[error("an agent has two next atoms after an outcome")]
    NotDeterministic(OutcomeId, AgentId),
    /// Want of memory.
    #[error("out of memory")]
    Memory,
}

impl From<Memory> for WorkFault {
    ghost use Rattle.nego_expr.specs.declared.uses.WorkFault.TheVariants as faults;

    ghost from_gives = { λ _ e. e ≡ faults.Memory };

    fn from(_error: Memory) -> WorkFault {
        WorkFault::Memory
    }
}
