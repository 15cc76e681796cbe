//! The command line of nego as one call over a source and two sinks, with its contract over bytes.
#![tactic(auto)]

mod answer;
mod ask;
mod certificate;
mod check;
mod command;
mod deliver;
mod determined;
mod dispatch;
mod failure;
mod form_text;
mod joint_text;
mod joint_texts;
mod load;
mod make;
mod make_laws;
mod names;
mod reduce;
mod reduction;
mod refusal_text;
mod replay;
mod replay_laws;
mod run;
mod schedule;
mod shape_text;
mod splitting;
mod starts;
mod status;
mod top;
mod verdict;
mod verdict_laws;
mod word_laws;
mod words;

pub use command::{Command, WordsAnswer};
pub use make_laws::made_texts_are_inputs;
pub use replay_laws::reductions_are_replayed;
pub use status::Status;
pub use top::nego;
pub use verdict_laws::verdicts_are_one;
pub use word_laws::number_words_are_decimals;
pub use words::words_of;
