//! Why the text of a diagram has no shape.

use nego_base::{AgentId, AtomId, Memory, OutcomeId, Text};
use thiserror::Error;

/// What there is too much of.
#[derive(Clone, Copy, Debug, PartialEq, Eq)]
pub enum Many {
    /// More than 16 agents.
    Agents,
    /// More than 64 atoms.
    Atoms,
    /// More than 256 outcomes.
    Outcomes,
}

/// A fault of shape. Agents, atoms and outcomes are numbered in the order of the text, from 0.
#[derive(Debug, PartialEq, Eq, Drop)]
pub enum ShapeKind {
    /// There is no agent.
    NoAgent,
    /// There are too many of these.
    TooMany(Many),
    /// A name stands twice: of two agents, of two atoms, of two outcomes of an atom, of two parties of an atom, of an
    /// agent that a case assigns to twice, or of an agent that an outcome leads to one atom twice.
    Twice(Text),
    /// No agent, or no atom, has this name.
    Unknown(Text),
    /// The atom has no party.
    NoParty(AtomId),
    /// The atom has no outcome.
    NoOutcome(AtomId),
    /// The agent is no party of the first atom.
    FirstLacks(AgentId),
    /// The agent is no party of the last atom.
    LastLacks(AgentId),
    /// The party of the outcome's atom, which isn't the last, stands on none of the outcome's next lines.
    NextMissing(OutcomeId, AgentId),
    /// The agent stands on a next line of the outcome for this atom, and is no party of the outcome's atom or of this one.
    NextStranger(OutcomeId, AgentId, AtomId),
    /// The outcome of the last atom has a next line.
    LastLeads(OutcomeId),
    /// The agent stands in a case of the outcome, and is no party of the outcome's atom.
    NotParty(OutcomeId, AgentId),
    /// The agent has size 0.
    ZeroSize(AgentId),
    /// The agent has a size above 64.
    SizeTooLarge(AgentId),
    /// The product of the sizes up to this agent's is the first above 1,024.
    JointTooLarge(AgentId),
    /// A case of the outcome assigns the agent a constant that isn't below its size.
    ValueTooLarge(OutcomeId, AgentId),
    /// The cases of the outcome leave this joint data uncovered, and no lesser.
    NotTotal(OutcomeId, u16),
}

/// A fault of shape, and the line on which it stands, from 1.
#[derive(Debug, PartialEq, Eq, Drop)]
pub struct ShapeFault {
    pub line: u32,
    pub kind: ShapeKind,
}

/// Why a text has no diagram.
#[derive(Debug, Drop, Error)]
pub enum ShapeAnswer {
    /// The text has this fault of shape.
    #[error("the text does not have the shape of a diagram")]
    Off(ShapeFault),
    /// Want of memory.
    #[error("out of memory")]
    Memory,
}

impl From<Memory> for ShapeAnswer {
    ghost use Rattle.std.specs.Prelude.{◌≡◌};
    ghost use Rattle.nego_shape.specs.declared.fault.ShapeAnswer.TheVariants as answers;

    ghost from_gives = { λ _ e. e ≡ answers.Memory };

    fn from(_error: Memory) -> ShapeAnswer {
        ShapeAnswer::Memory
    }
}
