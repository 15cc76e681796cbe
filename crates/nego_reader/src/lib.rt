//! The text of a diagram, read and printed.
#![tactic(auto)]

pub mod laws;
mod lines;
mod parsed;
mod pieces;
mod print;
mod reading;
#[cfg(test)]
mod tests;
mod words;

pub use parsed::{PAgent, PAtom, PCase, PNext, POut, PRight, PSet, PTerm, PTest, Parsed};
pub use print::print_diagram;
pub use reading::read_diagram;
