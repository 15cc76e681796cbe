//! Evaluation of a summary: the joint data that its final outcomes relate to a start.
#![tactic(auto)]

mod answers;
mod frame;
mod kept;
mod making;
mod rows;
#[cfg(test)]
mod tests;

pub use answers::{Answers, ask, holds};
