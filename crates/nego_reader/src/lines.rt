//! What one line says.

ghost use Rattle.std.specs.Prelude.{◌≡◌, ◌==◌, ◌+◌, ◌<◌, ◌^◌, All, drop, length, position, option_map, IfOk, IfSome};
ghost use Rattle.std.specs.List.{list_any};
ghost use Rattle.nego_reader.specs.Table.{is_colon};
ghost use Rattle.nego_base.specs.LineWalk.{each, word_in};
ghost use Rattle.nego_base.specs.Grammar.{exact_words};
ghost use Rattle.nego_reader.specs.Reading.{name_of, name_in, header_in, agent_in, named_in, names_in, next_in, sides_of, case_in, test_of, set_of};
ghost use Rattle.nego_base.specs.LineAnswers.{Gives, Tells, FitsWord, FitsLine};

use crate::parsed::{PAgent, PCase, PNext, PSet, PTest};
use crate::words::{set_of, test_of};
use nego_base::{Fault, FaultKind, Line, ReadFaults, Reserved, Seq, Word};
use std::alloc::Global;

/// The words of the line from place n on.
#[tactic(auto, using(crate::proofs::Fitting::fit_behind))]
fn words_from(line: &Line, n: usize) -> &[Word]
    requires { FitsLine line.now }
    ensures words { result.now ≡ drop n line.now.words }
    ensures fits { All FitsWord result.now }
{
    let words = line.words.as_slice();
    &words[n.min(words.len())..]
}

/// The name that the word is.
#[tactic(auto, unfolding(crate::specs::Reading::name_of))]
fn name_of(alloc: Global, word: &Word) -> Result<Word, ReadFaults>
    ensures { Gives (λ name. name) result (name_of word.now) }
{
    word.name()?;
    Ok(word.copied(alloc)?)
}

/// The name at a place of the line.
#[tactic(auto, unfolding(crate::specs::Reading::name_in))]
fn name_in(alloc: Global, line: &Line, i: usize) -> Result<Word, ReadFaults>
    requires { FitsLine line.now }
    ensures { Gives (λ name. name) result (name_in line.now i) }
{
    let word = line.word(i)?;
    name_of(alloc, word)
}

/// That the first line is of version 1.
#[tactic(auto, unfolding(crate::specs::Reading::header_in))]
pub(crate) fn header_in(line: &Line) -> Result<(), Fault>
    requires { FitsLine line.now }
    ensures { Tells (λ _. tt) result (header_in line.now) }
{
    line.exactly(2)?;
    let version = line.word(1)?;
    if version.is(b"1") {
        Ok(())
    } else {
        Err(version.fault(FaultKind::Version))
    }
}

/// The agent of the line.
#[tactic(auto, unfolding(crate::specs::Reading::agent_in))]
pub(crate) fn agent_in(alloc: Global, line: &Line) -> Result<PAgent, ReadFaults>
    requires { FitsLine line.now }
    ensures { Gives (λ agent. agent) result (agent_in line.now) }
{
    line.exactly(3)?;
    let name = name_in(alloc, line, 1)?;
    let size = line.word(2)?.number()?;
    Ok(PAgent { name, size })
}

/// The name in the line, which has two words.
#[tactic(auto, unfolding(crate::specs::Reading::named_in))]
pub(crate) fn named_in(alloc: Global, line: &Line) -> Result<Word, ReadFaults>
    requires { FitsLine line.now }
    ensures { Gives (λ name. name) result (named_in line.now) }
{
    line.exactly(2)?;
    name_in(alloc, line, 1)
}

/// The names that the words are.
fn names_of(alloc: Global, words: &[Word]) -> Result<Seq<Word>, ReadFaults>
    ensures { Gives (λ names. names) result (each name_of words.now) }
{
    let mut names = Reserved::new(alloc, words.len())?;
    for word in words {
        names.push(name_of(alloc, word)?);
    }
    Ok(names.into_seq())
}

/// The name in the line, and the names behind it, where the line has at least n words.
#[tactic(auto, unfolding(crate::specs::Reading::names_in))]
pub(crate) fn names_in(
    alloc: Global,
    n: usize,
    line: &Line,
) -> Result<(Word, Seq<Word>), ReadFaults>
    requires { FitsLine line.now }
    ensures { Gives (λ names. names) result (names_in n line.now) }
{
    line.at_least(n)?;
    let name = name_in(alloc, line, 1)?;
    let names = names_of(alloc, words_from(line, 2))?;
    Ok((name, names))
}

/// The next atom in the line, and its agents.
#[tactic(auto, unfolding(crate::specs::Reading::next_in))]
pub(crate) fn next_in(alloc: Global, line: &Line) -> Result<PNext, ReadFaults>
    requires { FitsLine line.now }
    ensures { Gives (λ next. next) result (next_in line.now) }
{
    let (atom, agents) = names_in(alloc, 3, line)?;
    Ok(PNext { atom, agents })
}

fn is_colon(word: &Word) -> bool
    ensures { result ≡ is_colon word.now }
{
    word.is(b":")
}

/// The place of the first colon.
fn colon_place(words: &[Word]) -> Option<usize>
    ensures same { result ≡ position is_colon words.now }
    ensures within { IfSome result (λ n. n < length words.now) }
{
    words.iter().position(|word| is_colon(word))
}

fn has_colon(words: &[Word]) -> bool
    ensures { result ≡ list_any is_colon words.now }
{
    words.iter().any(|word| is_colon(word))
}

/// The words before and behind the one colon.
#[tactic(auto, using(std::proofs::lemmas::List::take_rest, crate::proofs::Fitting::fit_front, crate::proofs::Fitting::fit_behind), unfolding(crate::specs::Reading::sides_of))]
fn sides_of(words: &[Word]) -> Option<(&[Word], &[Word])>
    requires { All FitsWord words.now }
    ensures tests { IfSome result (λ sides. All FitsWord sides.0.now) }
    ensures sets { IfSome result (λ sides. All FitsWord sides.1.now) }
    ensures sides { option_map (λ sides. (sides.0.now, sides.1.now)) result ≡ sides_of words.now }
{
    let n = colon_place(words)?;
    let (tests, sets) = (&words[..n], &words[n + 1..]);
    if has_colon(sets) {
        None
    } else {
        Some((tests, sets))
    }
}

/// The comparisons that the words are.
fn tests_of(alloc: Global, words: &[Word]) -> Result<Seq<PTest>, ReadFaults>
    requires { All FitsWord words.now }
    ensures { Gives (λ tests. tests) result (each test_of words.now) }
{
    let mut tests = Reserved::new(alloc, words.len())?;
    for word in words {
        tests.push(test_of(alloc, word)?);
    }
    Ok(tests.into_seq())
}

/// The assignments that the words are.
fn sets_of(alloc: Global, words: &[Word]) -> Result<Seq<PSet>, ReadFaults>
    requires { All FitsWord words.now }
    ensures { Gives (λ sets. sets) result (each set_of words.now) }
{
    let mut sets = Reserved::new(alloc, words.len())?;
    for word in words {
        sets.push(set_of(alloc, word)?);
    }
    Ok(sets.into_seq())
}

/// The case of the line.
#[tactic(auto, unfolding(crate::specs::Reading::case_in))]
pub(crate) fn case_in(alloc: Global, line: &Line) -> Result<PCase, ReadFaults>
    requires { FitsLine line.now }
    ensures { Gives (λ case. case) result (case_in line.now) }
{
    line.at_least(2)?;
    let first = line.word(0)?;
    let sides = sides_of(words_from(line, 1));
    let (tests, sets) = sides.ok_or(first.fault(FaultKind::Case))?;
    let tests = tests_of(alloc, tests)?;
    let sets = sets_of(alloc, sets)?;
    Ok(PCase { tests, sets })
}
