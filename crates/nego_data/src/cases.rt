//! The cases of an outcome: what it demands of joint data, and what it assigns.

use nego_base::{AgentId, Op, Seq};

/// The right side of a comparison: a number, or an agent's value.
#[derive(Clone, Copy, Debug, PartialEq, Eq)]
pub enum Operand {
    /// This number.
    Number(u32),
    /// The agent's value.
    Value(AgentId),
}

/// A comparison of an agent's value.
#[derive(Clone, Copy, Debug, PartialEq, Eq)]
pub struct Test {
    /// The agent whose value stands on the left.
    pub agent: AgentId,
    /// How the two sides are compared.
    pub op: Op,
    /// What stands on the right.
    pub right: Operand,
}

/// What an agent is assigned: any value, a number, or an agent's value before plus or minus a number, clipped into
/// the range of the agent that is assigned.
#[derive(Clone, Copy, Debug, PartialEq, Eq)]
pub enum Term {
    /// Any value in the range of the agent that is assigned.
    Any,
    /// This number.
    Number(u32),
    /// The agent's value before plus the number, or the greatest in range where that is less.
    Plus(AgentId, u32),
    /// The agent's value before minus the number, or 0 where that is below 0, or the greatest in range where that is
    /// less.
    Minus(AgentId, u32),
}

/// An assignment to an agent.
#[derive(Clone, Copy, Debug, PartialEq, Eq)]
pub struct Set {
    /// The agent that is assigned.
    pub agent: AgentId,
    /// What it is assigned.
    pub term: Term,
}

/// A case of an outcome: it covers the joint data of which all its comparisons hold, and gives those agents that it
/// assigns their terms' values.
#[derive(Debug, Drop)]
pub struct Case {
    /// The comparisons, which are all to hold.
    pub tests: Seq<Test>,
    /// The assignments, which are all made at once.
    pub sets: Seq<Set>,
}
