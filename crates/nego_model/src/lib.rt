//! What a negotiation is and does, deterministic or not: diagrams, markings, runs, soundness, joined data, expressions.
#![tactic(auto)]

mod determinism;
mod diagram;
mod following;
pub mod laws;
mod marking;
mod parts;
mod runs;

pub use diagram::Diagram;
pub use following::follow;
pub use marking::Marking;
pub use parts::{AtomPart, OutcomePart, Parts};
pub use runs::{Follow, Run};
