//! What every other crate stands on: numbers of agents, atoms, outcomes and nodes, the two sets, lists and texts,
//! names, comparisons, the lines and words of a text, and the counter of steps.
#![tactic(auto)]

mod agent_set;
mod atom_set;
mod fault;
mod grammar;
mod ids;
pub mod laws;
mod line;
mod memory;
mod name;
mod number;
mod number_set;
mod op;
mod reading;
mod reserved;
mod scanning;
mod seq;
mod short_text;
mod splitting;
mod steps;
#[cfg(test)]
mod tests;
#[cfg(test)]
mod text_tests;

pub use agent_set::AgentSet;
pub use atom_set::AtomSet;
pub use fault::{Fault, FaultKind, ReadFaults, ScanAnswer};
pub use ids::{AgentId, AtomId, NodeId, OutcomeId};
pub use line::{Line, Lines, Word};
pub use memory::Memory;
pub use name::is_name;
pub use number::{is_numeral, number_of};
pub use number_set::NumberSet;
pub use op::Op;
pub use reading::missing_end;
pub use reserved::Reserved;
pub use scanning::scan;
pub use seq::{Seq, Text};
pub use short_text::ShortText;
pub use splitting::{all_blank, from_word, line_body};
pub use steps::Steps;
