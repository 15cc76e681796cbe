//! The parts of a diagram, as they are handed over by what made them.

use nego_base::{AgentSet, AtomId, AtomSet, Seq, Text};
use nego_data::{Sizes, Table};

/// An atom: its name, its parties, and the numbers of its outcomes, which are `count` numbers from `start` on.
#[derive(Debug, Drop)]
pub struct AtomPart {
    /// The name.
    pub name: Text,
    /// The parties.
    pub parties: AgentSet,
    /// The least number of an outcome.
    pub start: u32,
    /// How many outcomes there are.
    pub count: u32,
}

/// An outcome: its name, its atom, for each agent its next atoms, and the table of its relation on joint data. What
/// stands in `nexts` past the agents is not read.
#[derive(Debug, Drop)]
pub struct OutcomePart {
    /// The name.
    pub name: Text,
    /// The atom of which it is one.
    pub atom: AtomId,
    /// For each agent its next atoms.
    pub nexts: [AtomSet; 16],
    /// What it relates.
    pub table: Table,
}

/// The parts of a diagram: the agents' names and the sizes of their data, the atoms, the outcomes in the order of
/// their atoms, the first and the last atom. Agents, atoms and outcomes are numbered by their places, from 0.
#[derive(Debug, Drop)]
pub struct Parts {
    /// The agents' names.
    pub agents: Seq<Text>,
    /// The sizes of their data.
    pub sizes: Sizes,
    /// The atoms.
    pub atoms: Seq<AtomPart>,
    /// The outcomes, in the order of their atoms.
    pub outcomes: Seq<OutcomePart>,
    /// The first atom.
    pub first: AtomId,
    /// The last atom.
    pub last: AtomId,
}
