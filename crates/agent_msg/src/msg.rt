//! Messages.

use nego_base::{AgentId, AtomId, OutcomeId};

/// An agent is ready for an atom, and tells its leader. The visit is the number of the agent's records, the value its
/// own.
#[derive(Clone, Copy, Debug, PartialEq, Eq, Hash)]
pub struct Ready {
    pub from: AgentId,
    pub to: AgentId,
    pub atom: AtomId,
    pub visit: u16,
    pub value: u16,
}

/// A leader has decided an atom's outcome, and tells a party. The visit is that of the party's Ready, and the value
/// after is the party's.
#[derive(Clone, Copy, Debug, PartialEq, Eq, Hash)]
pub struct Decide {
    pub from: AgentId,
    pub to: AgentId,
    pub atom: AtomId,
    pub outcome: OutcomeId,
    pub visit: u16,
    pub after: u16,
}

/// What one agent tells another.
#[derive(Clone, Copy, Debug, PartialEq, Eq, Hash)]
pub enum Msg {
    Ready(Ready),
    Decide(Decide),
}
