//! What an agent answers.

use agent_msg::{Decide, Record};
use nego_base::AgentId;

/// What became of a message that was given to an agent.
#[derive(Clone, Copy, Debug, PartialEq, Eq)]
pub enum Give {
    /// The agent holds the Ready.
    Kept,
    /// The agent recorded its move.
    Recorded(Record),
    /// The agent decided on this Ready, and tells the Decide again.
    Again(Decide),
    /// The agent has more records than the Decide's visit.
    Old,
    /// The message isn't one for the agent now.
    Stranger,
}

/// What became of an agent's decision.
#[derive(Clone, Copy, Debug, PartialEq, Eq)]
pub enum Decided {
    /// The agent decided, and recorded this.
    Done(Record),
    /// The agent is finished.
    Finished,
    /// Another leads the agent's atom.
    NotLeader,
    /// The agent holds no Ready for its atom from this party, which is the least.
    Waits(AgentId),
}

/// Why an agent doesn't decide.
#[derive(Clone, Copy, Debug, PartialEq, Eq)]
pub(crate) enum Refused {
    /// The agent is finished.
    Finished,
    /// Another leads the agent's atom.
    NotLeader,
    /// The agent holds no Ready for its atom from this party, which is the least.
    Waits(AgentId),
}
