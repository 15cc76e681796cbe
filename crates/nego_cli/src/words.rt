//! Reads the words of a call as a command.

ghost use Rattle.std.specs.Prelude.{◌≡◌, ◌&&◌, IfOk, Err, Some, None, map, nat_le, option_map, if◌then◌else◌, false, true};
ghost use Rattle.std.specs.List.{list_all};
ghost use Rattle.clap.specs.Words.{subcommand_rows_of};
ghost use Rattle.nego_cli.specs.CommandLine.{command_split};
ghost use Rattle.nego_cli.specs.Words.{Gives, are_words, command_of, command_with, is_word, make_words, node_words, number_word, size_word, start_words};

use crate::splitting::split;
use crate::{Command, WordsAnswer};
use clap::ArgMatches;
use nego_base::{Seq, Text, is_numeral};
use std::alloc::Global;

/// How many words a call has at most.
const WORDS_LIMIT: usize = 19;

/// How many bytes a word has at most.
const WORD_LIMIT: usize = 24;

/// The greatest start value, which has six digits.
const START_LIMIT: u32 = 999_999;

/// The most turns of a run over disks and a link.
const TURNS_LIMIT: u32 = 10_000;

/// The greatest size of what is made.
const SIZE_LIMIT: u32 = 64;

/// Whether each byte is printable and no blank.
fn is_printable(bytes: &[u8]) -> bool
    ensures { result ≡ list_all (λ b. nat_le 33 b && nat_le b 126) bytes.now }
{
    bytes.iter().all(|b| b.is_ascii_graphic())
}

/// Whether the bytes have the form of a word.
fn is_word(bytes: &[u8]) -> bool
    ensures { result ≡ is_word bytes.now }
{
    !bytes.is_empty()
        && bytes.len() <= WORD_LIMIT
        && !bytes.starts_with(b"-")
        && is_printable(bytes)
}

/// The word as text.
fn text_of(word: &Text) -> Option<&str>
    ensures { option_map (λ s. s.now) result ≡ (if is_word word.now then Some word.now else None) }
{
    let bytes = word.as_slice();
    if !is_word(bytes) {
        return None;
    }
    str::from_utf8(bytes).ok()
}

/// The words as texts.
fn texts_of<'a>(alloc: Global, words: &'a [Text]) -> Result<Vec<&'a str>, WordsAnswer>
    ensures texts { IfOk result (λ texts. map (λ s. s.now) texts.items ≡ words.entry.now) }
    ensures right { IfOk result (λ _. are_words words.entry.now ≡ true) }
    ensures wrong { result ≡ Err WordsAnswer.Words → are_words words.entry.now ≡ false }
{
    if words.is_empty() || words.len() > WORDS_LIMIT {
        return Err(WordsAnswer::Words);
    }
    let mut texts = Vec::new(alloc);
    for word in words {
        texts.push(text_of(word).ok_or(WordsAnswer::Words)?)?;
    }
    Ok(texts)
}

/// The number that the word spells, where it is at most `most`.
fn number(word: &str, most: u64) -> Option<u64>
    ensures { result ≡ number_word most word.now }
{
    if !is_numeral(word.as_bytes()) {
        return None;
    }
    let n = word.parse::<u64>().ok()?;
    if n <= most { Some(n) } else { None }
}

/// The number that the word spells, where it is at most `most`, in 32 bits.
fn small_number(word: &str, most: u32) -> Option<u32>
    ensures { result ≡ number_word most word.now }
{
    let n = number(word, u64::from(most))?;
    u32::try_from(n).ok()
}

/// The start values that the words spell.
fn start_words(alloc: Global, words: &[&str]) -> Result<Seq<u32>, WordsAnswer>
    ensures { Gives (start_words (map (λ s. s.now) words.now)) result }
{
    let mut starts = Seq::new(alloc);
    for word in words {
        starts.push(small_number(word, START_LIMIT).ok_or(WordsAnswer::Words)?)?;
    }
    Ok(starts)
}

/// The command `node` with what the words behind it spell.
fn node_words(alloc: Global, words: &[&str]) -> Result<Command, WordsAnswer>
    ensures { Gives (node_words (map (λ s. s.now) words.now)) result }
{
    let [seed, turns, starts @ ..] = words else {
        return Err(WordsAnswer::Words);
    };
    let seed = number(seed, u64::MAX).ok_or(WordsAnswer::Words)?;
    let turns = small_number(turns, TURNS_LIMIT).ok_or(WordsAnswer::Words)?;
    Ok(Command::Node(seed, turns, start_words(alloc, starts)?))
}

/// The size that the word spells.
fn size_word(word: &str) -> Option<u32>
    ensures { result ≡ size_word word.now }
{
    let size = small_number(word, SIZE_LIMIT)?;
    if size >= 2 { Some(size) } else { None }
}

/// The command `make` with what the words behind it spell.
fn make_words(words: &[&str]) -> Result<Command, WordsAnswer>
    ensures { Gives (make_words (map (λ s. s.now) words.now)) result }
{
    let [size] = words else {
        return Err(WordsAnswer::Words);
    };
    Ok(Command::Make(size_word(size).ok_or(WordsAnswer::Words)?))
}

/// The command of this name with what the words behind it spell.
fn command_with(alloc: Global, name: &str, words: &[&str]) -> Result<Command, WordsAnswer>
    ensures { Gives (command_with name.now (map (λ s. s.now) words.now)) result }
{
    match name {
        "check" => Ok(Command::Check),
        "reduce" => Ok(Command::Reduce),
        "replay" => Ok(Command::Replay),
        "ask" => Ok(Command::Ask(start_words(alloc, words)?)),
        "run" => Ok(Command::Run(start_words(alloc, words)?)),
        "node" => node_words(alloc, words),
        "make" => make_words(words),
        _ => Err(WordsAnswer::Words),
    }
}

/// The command of what the words were split into.
fn command_split(alloc: Global, found: &ArgMatches<'_>) -> Result<Command, WordsAnswer>
    ensures { Gives (command_split (subcommand_rows_of found.now)) result }
{
    let Some((name, behind)) = found.subcommand() else {
        return Err(WordsAnswer::Words);
    };
    command_with(alloc, name, behind.get_raw("numbers").unwrap_or(&[]))
}

/// The command that the words of a call say. The words are none where they break a rule on their form, where the first
/// is no command or takes another count of words behind it, and where a word that should spell a number doesn't, or not
/// one in its range.
pub fn words_of(alloc: Global, words: &[Text]) -> Result<Command, WordsAnswer>
    ensures ok { IfOk result (λ command. command_of words.now ≡ Some command) }
    ensures err { result ≡ Err WordsAnswer.Words → command_of words.now ≡ None }
{
    let texts = texts_of(alloc, words)?;
    let matches = split(alloc, texts.as_slice())?;
    command_split(alloc, &matches)
}
