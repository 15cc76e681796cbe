//! One agent: it tells, takes messages and decides, and keeps a record of each atom in which it took part.
#![tactic(auto)]

mod agent;
mod answers;
mod choice;
mod deciding;
mod giving;
mod knowing;
mod loading;
mod picking;
mod reading;
mod recording;

pub use agent::Agent;
pub use answers::{Decided, Give};
pub use choice::Choice;
pub use loading::LoadFault;
