//! The standard streams as a source and as sinks. They count their faults, and tell nothing of their bytes.

ghost use Rattle.std.specs.Prelude.{◌≡◌, ◌≢◌, ◌≤◌, ℕ, [], None, Ok, IsErr, IfOk, OnErr};
ghost use Rattle.nego_io.specs.Outside.{next_count};

use nego_io::{Failed, Sink, Source};
use std::io;
use std::io::{Read, Write};

/// Counts one fault more. The count stays at its last value.
fn fault(faults: &mut u64) -> Failed
    ensures counted { faults.new ≡ next_count faults.old }
    ensures later { faults.old ≤ faults.new }
{
    *faults = faults.saturating_add(1);
    Failed
}

/// What a reader's answer is for a source: its number, and a counted fault exactly where it is an error.
fn read_answer(answer: io::Result<usize>, faults: &mut u64) -> Result<usize, Failed>
    ensures ok { IfOk answer (λ n. (result ≡ Ok n) × (faults.new ≡ faults.old)) }
    ensures err { OnErr answer (IsErr result × (faults.new ≡ next_count faults.old)) }
    ensures later { faults.old ≤ faults.new }
{
    match answer {
        Ok(count) => Ok(count),
        Err(_) => Err(fault(faults)),
    }
}

/// What a writer's answer for a piece is for a sink: its number, and a counted fault exactly where it is an error or
/// nothing was taken of a piece that isn't empty.
fn write_answer(answer: io::Result<usize>, piece: &[u8], faults: &mut u64) -> Result<usize, Failed>
    ensures ok { IfOk answer (λ n. (n ≡ 0 → piece.now ≡ []) → (result ≡ Ok n) × (faults.new ≡ faults.old)) }
    ensures nothing { IfOk answer (λ n. n ≡ 0 → piece.now ≢ [] → IsErr result × (faults.new ≡ next_count faults.old)) }
    ensures err { OnErr answer (IsErr result × (faults.new ≡ next_count faults.old)) }
    ensures later { faults.old ≤ faults.new }
{
    match answer {
        Ok(count) if count > 0 || piece.is_empty() => Ok(count),
        _ => Err(fault(faults)),
    }
}

/// A source that takes from a reader. Each error of the reader is a fault.
#[derive(Drop)]
pub(crate) struct ReaderSource<R: Read> {
    pub reader: R,
    pub faults: u64,
}

impl<R: Read> ReaderSource<R> {
    pub fn new(reader: R) -> ReaderSource<R>
        ensures { result.faults ≡ 0 }
    {
        ReaderSource { reader, faults: 0 }
    }
}

impl<R: Read> Source for ReaderSource<R> {
    ghost left = { λ _. None };

    ghost faults = { λ source. source.faults };

    fn take(&mut self, buf: &mut [u8]) -> Result<usize, Failed> {
        read_answer(self.reader.read(buf), &mut self.faults)
    }
}

/// A sink that puts into a writer. Each error of the writer is a fault, and so is a piece of which nothing is taken.
#[derive(Drop)]
pub(crate) struct WriterSink<W: Write> {
    pub writer: W,
    pub faults: u64,
}

impl<W: Write> WriterSink<W> {
    pub fn new(writer: W) -> WriterSink<W>
        ensures { result.faults ≡ 0 }
    {
        WriterSink { writer, faults: 0 }
    }
}

impl<W: Write> Sink for WriterSink<W> {
    ghost taken = { λ _. None };

    ghost faults = { λ sink. sink.faults };

    fn put(&mut self, piece: &[u8]) -> Result<usize, Failed> {
        write_answer(self.writer.write(piece), piece, &mut self.faults)
    }
}
