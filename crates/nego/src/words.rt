//! The words of the command line.

ghost use Rattle.std.specs.Prelude.{◌≡◌, ℕ, List, Option, None, IfOk, IfSome, slice_get};
ghost use Rattle.std.specs.Io.{WritesAtMost};
ghost use Rattle.nego.specs.Words.{AreBehindName, IsTextOf, IsWordOf};

use nego_base::{Memory, Seq, Text};
use std::alloc::Global;
use std::env::FillError;
use std::rt::Env;
use std::str;

/// The arguments of a call. The first, number 0, is the program's name.
pub(crate) trait Arguments {
    /// All of them as words, where they are told.
    ghost told: { Self → Option (List (List ℕ)) };

    /// The argument of this number as a word, and none past the last.
    fn word(&self, alloc: Global, i: usize) -> Result<Option<Text>, Memory>
        ensures { IfOk result (λ word. IfSome (told self.now) (λ all. word ≡ slice_get all i)) };
}

/// The words of a call: its arguments behind the program's name, all of them in their order.
pub(crate) fn argument_words<A: Arguments>(
    alloc: Global,
    arguments: &A,
) -> Result<Seq<Text>, Memory>
    ensures { IfOk result (AreBehindName (A.told arguments.now)) }
{
    let mut words = Seq::new(alloc);
    while let Some(word) = arguments.word(alloc, words.as_slice().len() + 1)? {
        words.push(word)?;
    }
    Ok(words)
}

/// The arguments that the system gives. It tells nothing of them.
#[derive(Drop)]
pub(crate) struct SystemArguments<'a, R: Env> {
    pub rt: &'a R,
}

/// How many bytes of an argument are looked at. No word of a command has so many.
const ARGUMENT_ROOM: usize = 4096;

impl<R: Env> Arguments for SystemArguments<'_, R> {
    ghost told = { λ _. None };

    fn word(&self, alloc: Global, i: usize) -> Result<Option<Text>, Memory> {
        let mut buf = [0u8; ARGUMENT_ROOM];
        let answer = self.rt.arg(i, &mut buf);
        word_of(alloc, answer, &buf)
    }
}

/// What the system answered for an argument, with the bytes that it wrote, as a word.
fn word_of(
    alloc: Global,
    answer: Result<usize, FillError>,
    written: &[u8],
) -> Result<Option<Text>, Memory>
    requires { WritesAtMost answer written.now }
    ensures { IfOk result (IsWordOf answer written.now) }
{
    match answer {
        Ok(count) => Ok(Some(Text::copy(alloc, text_of(&written[..count]))?)),
        Err(FillError::TooLong) => Ok(Some(Text::new(alloc))),
        Err(FillError::NotPresent) => Ok(None),
    }
}

/// The bytes where they are UTF-8, and no bytes where they aren't.
fn text_of(bytes: &[u8]) -> &[u8]
    ensures { IsTextOf bytes.now result.now }
{
    match str::from_utf8(bytes) {
        Ok(text) => text.as_bytes(),
        Err(_) => b"",
    }
}
