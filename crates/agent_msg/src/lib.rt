//! What agents tell each other and what they keep: messages and records.
#![tactic(auto)]

mod bytes;
mod laws;
mod msg;
mod msg_bytes;
mod record;
mod record_bytes;
mod shares;

pub use laws::one_value_of_bytes;
pub use msg::{Decide, Msg, Ready};
pub use msg_bytes::{read_msg, write_msg};
pub use record::{Record, decide_for};
pub use record_bytes::{read_record, write_record};

#[cfg(test)]
mod tests;
