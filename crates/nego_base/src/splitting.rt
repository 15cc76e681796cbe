//! Where lines and words end.
ghost use Rattle.std.specs.Prelude.{◌≡◌, ℕ, ◌+◌, ◌-◌, ◌<◌, ◌≤◌, ◌==◌, not, position, IfSome, false, ◌∷◌, length};
ghost use Rattle.std.specs.List.{list_all};
ghost use Rattle.nego_base.specs.Lines.{lines, is_newline, is_blank, is_word_end, without_end, words};
ghost use Rattle.nego_base.specs.Scan.{word_at, words_at};

use memchr::{memchr, memchr2};

/// Whether the byte is a space or a tab.
pub(crate) fn is_blank(b: u8) -> bool
    ensures { result ≡ is_blank b }
{
    b == b' ' || b == b'\t'
}

/// Whether all bytes are blanks: spaces and tabs.
pub fn all_blank(bytes: &[u8]) -> bool
    ensures { result ≡ list_all is_blank bytes.now }
{
    bytes.iter().all(|b| is_blank(*b))
}

/// The place of the first newline.
fn newline_place(bytes: &[u8]) -> Option<usize>
    ensures place { result ≡ position is_newline bytes.now }
    ensures within { IfSome result (λ i. i < length bytes.now) }
{
    memchr(b'\n', bytes)
}

/// The place of the first blank.
fn blank_place(bytes: &[u8]) -> Option<usize>
    ensures place { result ≡ position is_blank bytes.now }
    ensures within { IfSome result (λ i. i < length bytes.now) }
{
    memchr2(b' ', b'\t', bytes)
}

/// The place of the first byte that is no blank.
fn word_place(bytes: &[u8]) -> Option<usize>
    ensures place { result ≡ position (λ b. not (is_blank b)) bytes.now }
    ensures within { IfSome result (λ i. i < length bytes.now) }
{
    bytes.iter().position(|b| !is_blank(*b))
}

/// The first line, with its end, and what is behind it.
pub(crate) fn cut_line(bytes: &[u8]) -> (&[u8], &[u8])
    requires { 0 < length bytes.now }
    ensures lines { lines bytes.now ≡ result.0.now ∷ lines result.1.now }
    ensures whole { length bytes.now ≡ length result.0.now + length result.1.now }
    ensures filled { 0 < length result.0.now }
{
    match newline_place(bytes) {
        Some(i) => bytes.split_at(i + 1),
        None => (bytes, &[]),
    }
}

/// The line without its end: a newline, and one carriage return directly before it.
pub fn line_body(line: &[u8]) -> &[u8]
    ensures body { result.now ≡ without_end line.now }
    ensures within { length result.now ≤ length line.now }
{
    let Some(body) = line.strip_suffix(b"\n") else {
        return line;
    };
    body.strip_suffix(b"\r").unwrap_or(body)
}

/// The bytes from the first that is no blank.
pub fn from_word(bytes: &[u8]) -> &[u8]
    ensures same { words result.now ≡ words bytes.now }
    ensures places { (number column : ℕ) → words_at number column bytes.now ≡ words_at number (column + (length bytes.now - length result.now)) result.now }
    ensures begins { is_word_end result.now ≡ (length result.now == 0) }
    ensures within { length result.now ≤ length bytes.now }
{
    match word_place(bytes) {
        Some(i) => &bytes[i..],
        None => &[],
    }
}

/// The word with which the bytes begin, and what is behind it.
pub(crate) fn cut_word(bytes: &[u8]) -> (&[u8], &[u8])
    requires { is_word_end bytes.now ≡ false }
    ensures words { (number column : ℕ) → words_at number column bytes.now ≡ word_at number column result.0.now ∷ words_at number (column + length result.0.now) result.1.now }
    ensures whole { length bytes.now ≡ length result.0.now + length result.1.now }
    ensures filled { 0 < length result.0.now }
{
    match blank_place(bytes) {
        Some(i) => bytes.split_at(i),
        None => (bytes, &[]),
    }
}
