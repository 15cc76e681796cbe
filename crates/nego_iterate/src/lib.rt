//! The iteration rule: an outcome that sends every party of its atom back to it is put, any number of times, before the
//! atom's other outcomes.
#![tactic(auto)]

mod iterating;
mod law;

pub use iterating::{can_iterate, iterate};
pub use law::iterating_keeps;
