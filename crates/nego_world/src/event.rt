//! Events and schedules.

use agent_core::Choice;
use nego_base::{AgentId, Seq};

/// What happens to one agent. Messages are numbered by first sending, from 0.
#[derive(Clone, Copy, Debug, PartialEq, Eq)]
pub enum Event {
    /// The agent tells the leader of its atom, where it has something to tell.
    Tell(AgentId),
    /// The message of this number is given to its addressee.
    Give(u32),
    /// The agent decides its atom.
    Decide(AgentId, Choice),
    /// The agent stops and drops what it holds.
    Stop(AgentId),
    /// As `Give`, but the agent stops before a record is kept.
    GiveLost(u32),
    /// As `Give`, but the agent stops after a record is kept and before anything is sent.
    GiveKept(u32),
    /// As `Decide`, but the agent stops before its record is kept.
    DecideLost(AgentId, Choice),
    /// As `Decide`, but the agent stops after its record is kept and before anything is sent.
    DecideKept(AgentId, Choice),
}

/// An event, and the line of the text where it stands.
#[derive(Clone, Copy, Debug, PartialEq, Eq)]
pub struct EventLine {
    /// The line, from 1.
    pub line: u32,
    /// The event.
    pub event: Event,
}

/// Events in their order.
#[derive(Debug, Drop)]
pub struct Schedule {
    /// The events with their lines.
    pub events: Seq<EventLine>,
}
