//! Schedules and worlds as texts.
#![tactic(auto)]

mod lines;
mod reading;
mod reporting;

pub use reading::read_schedule;
pub use reporting::report;
