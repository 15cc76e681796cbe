//! What a step and a play answer.
ghost use Rattle.std.specs.Prelude.{◌≡◌};

use agent_msg::{Decide, Ready, Record};
use nego_base::{AgentId, Memory};
use thiserror::Error;

/// What an event did.
#[derive(Clone, Copy, Debug, PartialEq, Eq)]
pub struct Stepped {
    /// Who acted.
    pub agent: AgentId,
    /// The record that was kept.
    pub kept: Option<Record>,
    /// The Ready that was told.
    pub ready: Option<Ready>,
    /// The Decide that was sent again.
    pub again: Option<Decide>,
}

/// Why an event is refused.
#[derive(Clone, Copy, Debug, PartialEq, Eq, Error)]
pub enum StepWhy {
    /// So many messages or fewer were sent.
    #[error("no message has this number")]
    NoMessage(u32),
    /// The agent is finished.
    #[error("the agent is finished")]
    Finished,
    /// Another leads the agent's atom.
    #[error("the agent doesn't lead its atom")]
    NotLeader,
    /// The agent holds no Ready for its atom from this party, which is the least.
    #[error("the agent waits for a party")]
    Waits(AgentId),
}

/// Why there is no step.
#[derive(Clone, Copy, Debug, PartialEq, Eq, Error)]
pub enum StepFault {
    /// So many messages or fewer were sent.
    #[error("no message has this number")]
    NoMessage(u32),
    /// The agent is finished.
    #[error("the agent is finished")]
    Finished,
    /// Another leads the agent's atom.
    #[error("the agent doesn't lead its atom")]
    NotLeader,
    /// The agent holds no Ready for its atom from this party, which is the least.
    #[error("the agent waits for a party")]
    Waits(AgentId),
    /// Memory was wanted.
    #[error("out of memory")]
    Memory,
}

impl From<Memory> for StepFault {
    ghost use Rattle.nego_world.specs.declared.answers.StepFault.TheVariants as faults;

    ghost from_gives = { λ _ e. e ≡ faults.Memory };

    fn from(_error: Memory) -> StepFault {
        StepFault::Memory
    }
}

/// Why there is no world after a schedule.
#[derive(Clone, Copy, Debug, PartialEq, Eq, Error)]
pub enum PlayFault {
    /// The event of this line is the first that is refused.
    #[error("an event is refused")]
    At(u32, StepWhy),
    /// Memory was wanted.
    #[error("out of memory")]
    Memory,
}

impl From<Memory> for PlayFault {
    ghost use Rattle.nego_world.specs.declared.answers.PlayFault.TheVariants as faults;

    ghost from_gives = { λ _ e. e ≡ faults.Memory };

    fn from(_error: Memory) -> PlayFault {
        PlayFault::Memory
    }
}
