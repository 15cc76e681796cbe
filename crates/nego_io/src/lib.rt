//! The outside as traits, and parts of input: what a program takes, what it puts, and what is told of both.
#![tactic(auto)]

mod calls;
mod change;
mod disk_calls;
mod disks;
mod failed;
mod front;
mod laws;
mod lines;
mod mem_disks;
mod mem_sink;
mod mem_source;
mod part;
mod put;
mod replay;
mod sink;
mod source;

pub use disks::Disks;
pub use failed::Failed;
pub use laws::{
    calls_on_disks, ends_of_lines, lines_of_a_text, parts_of_an_input, taken_of_an_input,
    texts_that_are_parts, words_of_a_text,
};
pub use mem_disks::MemDisks;
pub use mem_sink::MemSink;
pub use mem_source::MemSource;
pub use part::{Part, ReadAnswer, read_part};
pub use put::{WriteFault, put_all};
pub use sink::Sink;
pub use source::Source;

#[cfg(test)]
mod tests;
