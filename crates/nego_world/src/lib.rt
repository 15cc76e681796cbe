//! The world of all agents: events happen in it, and what holds of it, whatever happens.
#![tactic(auto)]

mod answers;
mod event;
mod first;
mod history;
mod laws;
mod messages;
mod playing;
mod stepping;
mod world;

pub use answers::{PlayFault, StepFault, StepWhy, Stepped};
pub use event::{Event, EventLine, Schedule};
pub use laws::{
    agents_of_consistent_worlds_are_valid, consistent_worlds_finish_complete,
    events_keep_worlds_consistent, first_worlds_are_consistent, schedules_leave_consistent_worlds,
};
pub use playing::play;
pub use world::World;
