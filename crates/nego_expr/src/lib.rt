//! A diagram under rewriting: its expressions, its alive outcomes, the uses of the rules and the summary that is left.
#![tactic(auto)]

mod counts;
#[cfg(test)]
mod edit_tests;
mod edits;
mod finish;
mod fresh;
mod laws;
mod node;
mod outcome;
mod room;
mod slots;
mod summary;
mod targets;
#[cfg(test)]
mod tests;
mod uses;
mod work;

pub use laws::{
    finished_works_tell, fresh_works_stand, one_atom_works_are_sound, sorted_slots_are_one,
    uses_that_lead, works_are_local,
};
pub use node::{Node, Nodes};
pub use outcome::Outcome;
pub use slots::{Slot, place_of_slot};
pub use summary::{Final, Summary, print_summary};
pub use targets::Targets;
pub use uses::{RuleFault, Use, Uses, WorkFault};
pub use work::Work;
