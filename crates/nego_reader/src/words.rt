//! Words of case lines: comparisons and assignments. Each fault is `Case` at the word.

ghost use Rattle.std.specs.Prelude.{◌≡◌, ◌+◌, ◌<◌, ◌≤◌, ◌^◌, length, not, position, option_map, IfOk, IfSome};
ghost use Rattle.nego_base.specs.Name.{is_name_byte};
ghost use Rattle.nego_reader.specs.Reading.{name_end, sign_end, op_of, name_at, right_at, test_at, test_of, sum_of, sum_at, term_at, behind, set_of};
ghost use Rattle.nego_base.specs.LineAnswers.{Gives, Tells, FitsWord};

use crate::parsed::{PRight, PSet, PTerm, PTest};
use nego_base::{Fault, FaultKind, Memory, Op, ReadFaults, ShortText, Word, is_name, number_of};
use std::alloc::Global;

/// Whether the byte may stand in a name.
fn is_name_byte(b: u8) -> bool
    ensures { result ≡ is_name_byte b }
{
    b.is_ascii_lowercase() || b.is_ascii_digit() || b == b'_'
}

/// The place of the first byte that may not stand in a name.
fn other_byte(bytes: &[u8]) -> Option<usize>
    ensures same { result ≡ position (λ b. not (is_name_byte b)) bytes.now }
    ensures within { IfSome result (λ n. n < length bytes.now) }
{
    bytes.iter().position(|b| !is_name_byte(*b))
}

/// The place of the first byte that may stand in a name.
fn name_byte(bytes: &[u8]) -> Option<usize>
    ensures same { result ≡ position is_name_byte bytes.now }
    ensures within { IfSome result (λ n. n < length bytes.now) }
{
    bytes.iter().position(|b| is_name_byte(*b))
}

/// How many bytes stand before the first that may not stand in a name.
#[tactic(auto, unfolding(crate::specs::Reading::name_end))]
fn name_end(bytes: &[u8]) -> usize
    ensures same { result ≡ name_end bytes.now }
    ensures within { result ≤ length bytes.now }
{
    other_byte(bytes).unwrap_or(bytes.len())
}

/// How many bytes stand before the first that may stand in a name.
#[tactic(auto, unfolding(crate::specs::Reading::sign_end))]
fn sign_end(bytes: &[u8]) -> usize
    ensures same { result ≡ sign_end bytes.now }
    ensures within { result ≤ length bytes.now }
{
    name_byte(bytes).unwrap_or(bytes.len())
}

/// The operator that the bytes are.
#[tactic(auto, unfolding(crate::specs::Reading::op_of))]
fn op_of(bytes: &[u8]) -> Option<Op>
    ensures { result ≡ op_of bytes.now }
{
    match bytes {
        b"=" => Some(Op::Eq),
        b"!=" => Some(Op::Ne),
        b"<" => Some(Op::Lt),
        b"<=" => Some(Op::Le),
        b">" => Some(Op::Gt),
        b">=" => Some(Op::Ge),
        _ => None,
    }
}

/// The bytes behind the text.
#[tactic(auto, unfolding(crate::specs::Reading::behind))]
fn behind<'a>(text: &[u8], bytes: &'a [u8]) -> Option<&'a [u8]>
    ensures rest { option_map (λ rest. rest.now) result ≡ behind text.now bytes.now }
    ensures within { IfSome result (λ rest. length text.now + length rest.now ≤ length bytes.now) }
{
    bytes.strip_prefix(text)
}

/// The name that the bytes are, which stand in the word from place i on.
#[tactic(auto, unfolding(crate::specs::Reading::name_at))]
fn name_at(alloc: Global, word: &Word, i: usize, bytes: &[u8]) -> Result<Word, ReadFaults>
    requires { word.now.column + i < 2 ^ 32 }
    ensures { Gives (λ name. name) result (name_at word.now i bytes.now) }
{
    if !is_name(bytes) {
        return Err(ReadFaults::Off(word.fault(FaultKind::Case)));
    }
    Ok(Word {
        line: word.line,
        column: word.column + i as u32,
        text: ShortText::copy(alloc, bytes)?,
    })
}

/// The right side of a comparison that the bytes are, which stand in the word from place i on.
#[tactic(auto, unfolding(crate::specs::Reading::right_at))]
fn right_at(alloc: Global, word: &Word, i: usize, bytes: &[u8]) -> Result<PRight, ReadFaults>
    requires { word.now.column + i < 2 ^ 32 }
    ensures { Gives (λ right. right) result (right_at word.now i bytes.now) }
{
    match number_of(bytes) {
        Some(n) => Ok(PRight::Number(n)),
        None => Ok(PRight::Name(name_at(alloc, word, i, bytes)?)),
    }
}

/// The comparison that the word is, whose name and sign have so many bytes.
#[tactic(auto, unfolding(crate::specs::Reading::test_at))]
fn test_at(alloc: Global, word: &Word, n: usize, m: usize) -> Result<PTest, ReadFaults>
    requires fits { FitsWord word.now }
    requires within { n + m ≤ length word.now.text }
    ensures { Gives (λ test. test) result (test_at word.now n m) }
{
    let (name, rest) = word.text.as_slice().split_at(n);
    let (sign, bytes) = rest.split_at(m);
    let left = name_at(alloc, word, 0, name)?;
    let op = op_of(sign).ok_or(word.fault(FaultKind::Case))?;
    let right = right_at(alloc, word, n + m, bytes)?;
    Ok(PTest { left, op, right })
}

/// The comparison that the word is.
#[tactic(auto, unfolding(crate::specs::Reading::test_of))]
pub(crate) fn test_of(alloc: Global, word: &Word) -> Result<PTest, ReadFaults>
    requires { FitsWord word.now }
    ensures { Gives (λ test. test) result (test_of word.now) }
{
    let bytes = word.text.as_slice();
    let n = name_end(bytes);
    let m = sign_end(&bytes[n..]);
    test_at(alloc, word, n, m)
}

/// The name, and the number behind its sign, if one stands there.
#[tactic(auto, unfolding(crate::specs::Reading::sum_of))]
fn sum_of(word: &Word, name: Word, rest: &[u8]) -> Result<PTerm, Fault>
    ensures { Tells (λ term. term) result (sum_of word.now name rest.now) }
{
    let [sign, digits @ ..] = rest else {
        return Ok(PTerm::Plus(name, 0));
    };
    let fault = word.fault(FaultKind::Case);
    let n = number_of(digits).ok_or(fault)?;
    match *sign {
        b'+' => Ok(PTerm::Plus(name, n)),
        b'-' => Ok(PTerm::Minus(name, n)),
        _ => Err(fault),
    }
}

/// A name and what stands behind it, from place i of the word on.
#[tactic(auto, unfolding(crate::specs::Reading::sum_at))]
fn sum_at(alloc: Global, word: &Word, i: usize, bytes: &[u8]) -> Result<PTerm, ReadFaults>
    requires { word.now.column + i < 2 ^ 32 }
    ensures { Gives (λ term. term) result (sum_at word.now i bytes.now) }
{
    let (name, rest) = bytes.split_at(name_end(bytes));
    let name = name_at(alloc, word, i, name)?;
    Ok(sum_of(word, name, rest)?)
}

/// What is assigned by the bytes, which stand in the word from place i on.
#[tactic(auto, unfolding(crate::specs::Reading::term_at))]
fn term_at(alloc: Global, word: &Word, i: usize, bytes: &[u8]) -> Result<PTerm, ReadFaults>
    requires { word.now.column + i < 2 ^ 32 }
    ensures { Gives (λ term. term) result (term_at word.now i bytes.now) }
{
    if bytes == b"*".as_slice() {
        return Ok(PTerm::Any);
    }
    match number_of(bytes) {
        Some(n) => Ok(PTerm::Number(n)),
        None => sum_at(alloc, word, i, bytes),
    }
}

/// The assignment that the word is.
#[tactic(auto, unfolding(crate::specs::Reading::set_of))]
pub(crate) fn set_of(alloc: Global, word: &Word) -> Result<PSet, ReadFaults>
    requires { FitsWord word.now }
    ensures { Gives (λ set. set) result (set_of word.now) }
{
    let bytes = word.text.as_slice();
    let n = name_end(bytes);
    let (name, rest) = bytes.split_at(n);
    let agent = name_at(alloc, word, 0, name)?;
    let bytes = behind(b":=", rest).ok_or(word.fault(FaultKind::Case))?;
    let term = term_at(alloc, word, n + 2, bytes)?;
    Ok(PSet { agent, term })
}
