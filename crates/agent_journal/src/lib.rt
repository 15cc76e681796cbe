//! An agent's journal on a disk that may stop at any moment.
#![tactic(auto)]

mod fault;
mod journal;
mod laws;
mod slots;

pub use fault::JournalFault;
pub use journal::Journal;
pub use laws::lists_of_files;

#[cfg(test)]
mod tests;
