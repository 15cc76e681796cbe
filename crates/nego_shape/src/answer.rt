//! What is told of the edges between atoms.

use nego_base::{AtomId, Seq};

/// An order of all atoms in which every edge goes forward, or a cycle: an edge leads from each of its atoms to the
/// next, and from the last to the first.
#[derive(Debug, PartialEq, Eq, Drop)]
pub enum Order {
    Acyclic(Seq<AtomId>),
    Cycle(Seq<AtomId>),
}
