//! The merge rule: two outcomes of one atom that send every party to the same atoms become one.
#![tactic(auto)]

mod law;
mod merging;

pub use law::merging_keeps;
pub use merging::{can_merge, merge};
