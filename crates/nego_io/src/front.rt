ghost use Rattle.std.specs.Prelude.{◌≡◌, ◌+◌, ◌^◌, ◌<◌, ◌≤◌, [], ◌∷◌, ◌++◌, length, drop, Some, None, IfOk, OnErr, MatchBool};
ghost use Rattle.nego_io.specs.Part.{part_of, newlines};
ghost use Rattle.nego_io.specs.Front.{IsOpen, IsClosed, Reaches, begins_other};

use crate::lines::ends_part;
use crate::{Part, ReadAnswer};
use nego_base::{Memory, Text};
use std::alloc::Global;

/// For how many bytes a part goes on at least behind a piece of another line: a newline, and the word `end`.
pub const MAX_REACH: usize = 4;

/// Whether a line that begins with this byte is no end line, and goes on.
fn begins_other(b: u8) -> bool
    ensures { result ≡ begins_other b }
{
    !(b == b' ' || b == b'\t' || b == b'\n' || b == b'\r' || b == b'e')
}

/// What was read of a part: its bytes, where its present line begins, and how many lines are before that one.
#[derive(Debug, Drop)]
pub struct Front {
    pub bytes: Text,
    line_start: usize,
    lines: u32,
}

impl Front {
    /// Nothing was read.
    pub fn new(alloc: Global) -> Front
        ensures empty { result.bytes ≡ [] }
        ensures unended { IsOpen result.bytes result.line_start result.lines }
    {
        Front {
            bytes: Text::new(alloc),
            line_start: 0,
            lines: 0,
        }
    }

    /// The present line.
    fn line(&self) -> &[u8]
        requires { self.now.line_start ≤ length self.now.bytes }
        ensures { result.now ≡ drop self.now.line_start self.now.bytes }
    {
        &self.bytes.as_slice()[self.line_start..]
    }

    /// Puts the next byte behind the others, and answers whether the part ends with it.
    fn push(&mut self, byte: u8) -> Result<bool, Memory>
        requires unended { IsOpen self.old.bytes self.old.line_start self.old.lines }
        requires room { length self.old.bytes + 1 < 2 ^ 32 }
        ensures bytes { IfOk result (λ _. self.new.bytes ≡ self.old.bytes ++ byte ∷ []) }
        ensures ends { IfOk result (λ ends. MatchBool ends (IsClosed self.new.bytes) (IsOpen self.new.bytes self.new.line_start self.new.lines)) }
    {
        self.bytes.push(byte)?;
        if byte != b'\n' {
            return Ok(false);
        }
        if ends_part(self.line()) {
            return Ok(true);
        }
        self.line_start = self.bytes.len();
        self.lines += 1;
        Ok(false)
    }

    /// For how many bytes the part goes on at least, where any more come.
    pub fn reach(&self) -> usize
        requires unended { IsOpen self.now.bytes self.now.line_start self.now.lines }
        ensures some { 0 < result }
        ensures few { result ≤ 4 }
        ensures within { Reaches self.now.bytes result }
    {
        let [first, ..] = self.line() else {
            return 1;
        };
        if begins_other(*first) { MAX_REACH } else { 1 }
    }

    /// Puts the next bytes behind the others, and answers whether the part ends with them.
    pub fn put(&mut self, next: &[u8]) -> Result<bool, Memory>
        requires unended { IsOpen self.old.bytes self.old.line_start self.old.lines }
        requires reach { Reaches self.old.bytes (length next.now) }
        requires room { length self.old.bytes + length next.now < 2 ^ 32 }
        ensures bytes { IfOk result (λ _. self.new.bytes ≡ self.old.bytes ++ next.now) }
        ensures ends { IfOk result (λ ends. MatchBool ends (IsClosed self.new.bytes) (IsOpen self.new.bytes self.new.line_start self.new.lines)) }
    {
        if !next.contains(&b'\n') {
            self.bytes.extend_from_slice(next)?;
            return Ok(false);
        }
        for byte in next {
            if self.push(*byte)? {
                return Ok(true);
            }
        }
        Ok(false)
    }

    /// What all these bytes are where no more come.
    pub fn finish(self) -> Result<Part, ReadAnswer>
        requires unended { IsOpen self.bytes self.line_start self.lines }
        requires room { length self.bytes + 1 < 2 ^ 32 }
        ensures ok { IfOk result (λ part. (part.bytes ≡ self.bytes) × (part_of self.bytes ≡ Some self.bytes)) }
        ensures err { OnErr result ((part_of self.bytes ≡ None) × (result ≡ Err (ReadAnswer.NoEnd (1 + newlines self.bytes)))) }
    {
        if ends_part(self.line()) {
            Ok(Part { bytes: self.bytes })
        } else {
            Err(ReadAnswer::NoEnd {
                line: self.lines + 1,
            })
        }
    }
}
