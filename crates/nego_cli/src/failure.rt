//! Why a call puts no text on `out`.

ghost use Rattle.std.specs.Prelude.{◌≡◌};
ghost use Rattle.nego_cli.specs.declared.failure.Failure.TheVariants.{Memory as Starved};

use nego_base::{AgentId, Fault, Memory, OutcomeId};
use nego_model::Diagram;
use nego_reader::Parsed;
use nego_shape::ShapeFault;
use nego_world::StepWhy;

/// A part of an input, by what it holds.
#[derive(Clone, Copy, Debug, PartialEq, Eq)]
pub enum PartName {
    /// A diagram.
    Diagram,
    /// A certificate.
    Certificate,
    /// A schedule.
    Schedule,
}

/// Why start values are no start of the agents of a diagram.
#[derive(Clone, Copy, Debug, PartialEq, Eq)]
pub enum StartFault {
    /// They aren't one for each agent; there are so many.
    StartCount(usize),
    /// They are, and this is the first agent whose value isn't below its size.
    StartTooLarge(AgentId),
}

/// Why the input is refused, with what its line names.
#[derive(Debug, Drop)]
pub enum Refusal {
    /// The part has more bytes than a part may have.
    TooLong(PartName),
    /// The part has no end, which is missing on this line.
    NoEnd(PartName, u32),
    /// The part is off its grammar.
    Off(PartName, Fault),
    /// The value of a diagram's text has a fault of shape.
    Misshapen(Parsed, ShapeFault),
    /// The diagram isn't deterministic: after this outcome this agent has two next atoms or more.
    Undetermined(Diagram, OutcomeId, AgentId),
    /// The start values are no start of the agents of this diagram.
    NoStart(Diagram, StartFault),
    /// The event on this line of a schedule is the first that is refused, for this.
    NoStep(Diagram, u32, StepWhy),
}

/// Why there is no text.
#[derive(Debug, Drop)]
pub enum Failure {
    /// The words are no command that is built.
    Words,
    /// The input is refused.
    Refused(Refusal),
    /// The source failed.
    ReadFault,
    /// Memory was wanted and not given.
    Memory,
}

impl From<Memory> for Failure {
    ghost from_gives = { λ _ e. e ≡ Starved };

    fn from(_error: Memory) -> Failure {
        Failure::Memory
    }
}
