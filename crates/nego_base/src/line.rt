//! Lines of a text, and their words.
use crate::{Seq, ShortText};

/// A word of a text: its line, the column of its first byte, and its bytes.
#[derive(Debug, Drop)]
pub struct Word {
    pub line: u32,
    pub column: u32,
    pub text: ShortText,
}

/// A line that has words: its number in the text, its length without its end, and its words.
#[derive(Debug, Drop)]
pub struct Line {
    pub number: u32,
    pub length: u32,
    pub words: Seq<Word>,
}

/// The lines of a text without the blank ones and the comments, and the count of all its lines. A last line without a
/// newline counts, and nothing behind a last newline does.
#[derive(Debug, Drop)]
pub struct Lines {
    pub lines: Seq<Line>,
    pub count: u32,
}
