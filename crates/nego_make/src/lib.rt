//! The generator: diagrams of any number of atoms from 2 to 64, to try things on.
#![tactic(auto)]

mod making;
mod outcomes;
mod parties;
#[cfg(test)]
mod tests;
mod words;

pub use making::make_diagram;
