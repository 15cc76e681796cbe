//! What words say.

use crate::tests::calls::words_in;
use nego_base::{Memory, Seq, Text};
use nego_cli::{Command, WordsAnswer};
use std::alloc::Global;
use std::process::Abort;
use std::test::Fail;

/// What words are to say.
#[derive(Clone, Copy)]
enum Said {
    Check,
    Reduce,
    Replay,
    Ask(&'static [u32]),
    Run(&'static [u32]),
    Node(u64, u32, &'static [u32]),
    Make(u32),
}

const SIXTEEN: [u32; 16] = [1, 2, 3, 4, 5, 6, 7, 8, 9, 10, 11, 12, 13, 14, 15, 16];

/// Commands, and what they are read as.
static COMMANDS: [(&str, Said); 13] = [
    ("check", Said::Check),
    ("reduce", Said::Reduce),
    ("replay", Said::Replay),
    ("ask 0", Said::Ask(&[0])),
    ("ask 999999 10 7", Said::Ask(&[999_999, 10, 7])),
    (
        "ask 1 2 3 4 5 6 7 8 9 10 11 12 13 14 15 16",
        Said::Ask(&SIXTEEN),
    ),
    ("run 0", Said::Run(&[0])),
    (
        "run 1 2 3 4 5 6 7 8 9 10 11 12 13 14 15 16",
        Said::Run(&SIXTEEN),
    ),
    ("node 0 0 0", Said::Node(0, 0, &[0])),
    (
        "node 18446744073709551615 10000 3 4",
        Said::Node(18_446_744_073_709_551_615, 10_000, &[3, 4]),
    ),
    (
        "node 42 1 1 2 3 4 5 6 7 8 9 10 11 12 13 14 15 16",
        Said::Node(42, 1, &SIXTEEN),
    ),
    ("make 2", Said::Make(2)),
    ("make 64", Said::Make(64)),
];

/// Words that are no command.
static NO_COMMANDS: [&str; 46] = [
    "",
    "--help",
    "-h",
    "-V",
    "help",
    "help ask",
    "nego check",
    "cost 0",
    "chec",
    "Check",
    "check x",
    "check ",
    "check --",
    "reduce x",
    "reduce reduce",
    "replay 0",
    "ask",
    "ask 01",
    "ask 00",
    "ask +1",
    "ask -1",
    "ask 1x",
    "ask 1 ",
    "ask 1000000",
    "ask 1 --help",
    "ask -- 1",
    "ask 1 2 3 4 5 6 7 8 9 10 11 12 13 14 15 16 17",
    "run",
    "run 1 2 3 4 5 6 7 8 9 10 11 12 13 14 15 16 17",
    "node",
    "node 1 1",
    "node 18446744073709551616 1 0",
    "node 99999999999999999999 1 0",
    "node 01 1 0",
    "node 1 10001 0",
    "node 1 1 x",
    "node 42 1 1 2 3 4 5 6 7 8 9 10 11 12 13 14 15 16 17",
    "make",
    "make 1",
    "make 65",
    "make 02",
    "make 2 2",
    "make -x",
    "make \u{e4}",
    "ask 000000000000000000000000",
    "ask 1234567890123456789012345",
];

/// Words that are none too: no word, and one with a blank in it.
static ODD: [&[&str]; 2] = [&[], &["ask", "1 2"]];

/// Whether the command is what the words are to say.
fn is_said(said: Said, command: &Command) -> bool {
    match (said, command) {
        (Said::Check, Command::Check) => true,
        (Said::Reduce, Command::Reduce) => true,
        (Said::Replay, Command::Replay) => true,
        (Said::Ask(starts), Command::Ask(found)) => found.as_slice() == starts,
        (Said::Run(starts), Command::Run(found)) => found.as_slice() == starts,
        (Said::Node(seed, turns, starts), Command::Node(s, t, found)) => {
            seed == *s && turns == *t && found.as_slice() == starts
        }
        (Said::Make(size), Command::Make(n)) => size == *n,
        _ => false,
    }
}

/// Whether the words are no command.
fn are_refused(alloc: Global, words: &[Text]) -> bool {
    matches!(nego_cli::words_of(alloc, words), Err(WordsAnswer::Words))
}

/// The words of a list.
fn list_of(alloc: Global, words: &[&str]) -> Result<Seq<Text>, Memory> {
    let mut texts = Seq::new(alloc);
    for word in words {
        texts.push(Text::copy(alloc, word.as_bytes())?)?;
    }
    Ok(texts)
}

/// That all these words are read so.
pub(crate) fn words_are_read(rt: &impl Abort, alloc: Global) -> Result<(), Fail> {
    for (line, said) in &COMMANDS {
        let words = words_in(alloc, line)?;
        let command = nego_cli::words_of(alloc, &words)?;
        assert!(rt; is_said(*said, &command), "{line}");
    }
    for line in &NO_COMMANDS {
        let words = words_in(alloc, line)?;
        assert!(rt; are_refused(alloc, &words), "{line}");
    }
    for (i, list) in ODD.iter().enumerate() {
        let words = list_of(alloc, list)?;
        assert!(rt; are_refused(alloc, &words), "odd {i}");
    }
    Ok(())
}
