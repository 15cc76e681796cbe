//! From a text to its lines and words.
ghost use Rattle.std.specs.Prelude.{◌≡◌, ℕ, ◌+◌, ◌-◌, ◌^◌, ◌<◌, ◌≤◌, not, find, position, None, All, IfSome, IfOk, IfErr, OnOk, ◌++◌, length};
ghost use Rattle.nego_base.specs.Lines.{lines, is_blank};
ghost use Rattle.nego_base.specs.Scan.{is_comment, may_stand, bad_byte, line_fault, scan_fault, line_if_kept, words_at, scanned, count_lines, ScanHasCause};

use crate::splitting::{all_blank, cut_line, cut_word, from_word, is_blank, line_body};
use crate::{Fault, FaultKind, Line, Lines, Memory, ScanAnswer, Seq, ShortText, Word};
use memchr::memchr_iter;
use std::alloc::Global;

/// The most bytes that a line has without its end.
const MAX_LINE: usize = 1024;

/// The first byte that isn't a blank.
fn first_byte(line: &[u8]) -> Option<u8>
    ensures { result ≡ find (λ b. not (is_blank b)) line.now }
{
    line.iter().copied().find(|b| !is_blank(*b))
}

/// Whether the first byte that isn't a blank is `#`.
fn is_comment(line: &[u8]) -> bool
    ensures { result ≡ is_comment line.now }
{
    match first_byte(line) {
        Some(first) => first == b'#',
        None => false,
    }
}

fn may_stand(b: u8) -> bool
    ensures { result ≡ may_stand b }
{
    (33..=126).contains(&b) || is_blank(b)
}

/// Where the first byte is that may not stand in a line.
fn bad_place(bytes: &[u8]) -> Option<usize>
    ensures place { result ≡ position (λ b. not (may_stand b)) bytes.now }
    ensures within { IfSome result (λ i. i < length bytes.now) }
{
    bytes.iter().position(|b| !may_stand(*b))
}

/// Where the first byte is that may not stand in this line, among as many as a line may have.
#[tactic(auto, using(std::proofs::lemmas::List::take_min))]
fn bad_byte(line: &[u8]) -> Option<usize>
    ensures place { result ≡ bad_byte line.now }
    ensures within { IfSome result (λ i. i < 1024) }
{
    if is_comment(line) {
        return None;
    }
    bad_place(&line[..line.len().min(MAX_LINE)])
}

/// The first fault of a line without its end.
#[tactic(auto, unfolding(crate::specs::Scan::line_fault))]
fn line_fault(number: u32, line: &[u8]) -> Option<Fault>
    ensures { result ≡ line_fault number line.now }
{
    if let Some(i) = bad_byte(line) {
        return Some(Fault {
            line: number,
            column: i as u32 + 1,
            kind: FaultKind::Byte,
        });
    }
    if line.len() <= MAX_LINE {
        return None;
    }
    Some(Fault {
        line: number,
        column: MAX_LINE as u32 + 1,
        kind: FaultKind::Line,
    })
}

/// The first fault of the text's lines.
fn first_fault(bytes: &[u8]) -> Option<Fault>
    requires { length bytes.now < 2 ^ 32 - 1 }
    ensures { result ≡ scan_fault bytes.now }
{
    let mut rest = bytes;
    let mut number = 1;
    while !rest.is_empty() {
        let (line, after) = cut_line(rest);
        let fault = line_fault(number, line_body(line));
        if fault.is_some() {
            return fault;
        }
        number += 1;
        rest = after;
    }
    None
}

/// How many spaces a line has.
fn spaces(line: &[u8]) -> usize
    ensures { result ≤ length line.now }
{
    memchr_iter(b' ', line).count()
}

/// The words of a line without its end.
fn words_of(alloc: Global, number: u32, line: &[u8]) -> Result<Seq<Word>, Memory>
    requires { length line.now < 2 ^ 32 - 1 }
    ensures { IfOk result (λ words. words ≡ words_at number 1 line.now) }
{
    let mut words = Seq::from_vec(Vec::with_capacity(alloc, spaces(line) + 1)?);
    let mut rest = from_word(line);
    while !rest.is_empty() {
        let column = (line.len() - rest.len()) as u32 + 1;
        let (word, after) = cut_word(rest);
        words.push(Word {
            line: number,
            column,
            text: ShortText::copy(alloc, word)?,
        })?;
        rest = from_word(after);
    }
    Ok(words)
}

/// Puts a line without its end behind the lines, unless it is passed over.
fn add_line(alloc: Global, lines: &mut Seq<Line>, number: u32, line: &[u8]) -> Result<(), Memory>
    requires { length line.now < 2 ^ 32 - 1 }
    ensures { OnOk result (lines.new ≡ lines.old ++ line_if_kept number line.now) }
{
    if all_blank(line) || is_comment(line) {
        return Ok(());
    }
    lines.push(Line {
        number,
        length: line.len() as u32,
        words: words_of(alloc, number, line)?,
    })
}

/// The text's lines and their count.
fn all_lines(alloc: Global, bytes: &[u8]) -> Result<Lines, Memory>
    requires { length bytes.now < 2 ^ 32 - 1 }
    ensures lines { IfOk result (λ text. text.lines ≡ scanned bytes.now) }
    ensures count { IfOk result (λ text. text.count ≡ count_lines bytes.now) }
{
    let mut lines = Seq::new(alloc);
    let mut count = 0;
    let mut rest = bytes;
    while !rest.is_empty() {
        let (line, after) = cut_line(rest);
        count += 1;
        add_line(alloc, &mut lines, count, line_body(line))?;
        rest = after;
    }
    Ok(Lines { lines, count })
}

/// The lines of a text, and their words. A fault is found before memory is taken.
pub fn scan(alloc: Global, bytes: &[u8]) -> Result<Lines, ScanAnswer>
    requires { length bytes.now < 2 ^ 32 - 1 }
    ensures sound { IfOk result (λ _. scan_fault bytes.now ≡ None) }
    ensures lines { IfOk result (λ text. text.lines ≡ scanned bytes.now) }
    ensures count { IfOk result (λ text. text.count ≡ count_lines bytes.now) }
    ensures cause { IfErr result (λ e. ScanHasCause e bytes.now) }
    // A line that isn't passed over has a word, and all its columns, and the one behind it, are below 1,026.
    ensures filled { IfOk result (λ text. All (λ line. 0 < length line.words) text.lines) }
    ensures short { IfOk result (λ text. All (λ line. line.length ≤ 1024) text.lines) }
    ensures within { IfOk result (λ text. All (λ line. All (λ word. word.column + length word.text ≤ 1025) line.words) text.lines) }
    ensures few { IfOk result (λ text. text.count ≤ length bytes.now) }
{
    if let Some(fault) = first_fault(bytes) {
        return Err(ScanAnswer::Off(fault));
    }
    Ok(all_lines(alloc, bytes)?)
}
