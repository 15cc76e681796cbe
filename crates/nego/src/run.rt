//! One call of the program over streams.

ghost use Rattle.std.specs.Prelude.{◌≡◌, ◌⊎◌, ◌<◌};
ghost use Rattle.std.specs.Process.{exit_status};
ghost use Rattle.nego_cli.specs.Answer.{Says};
ghost use Rattle.nego_cli.specs.Status.{status_number};
ghost use Rattle.nego.specs.Run.{SaysOfArguments, counted};

use crate::streams::{ReaderSource, WriterSink};
use crate::words::{Arguments, argument_words};
use nego_base::{Steps, Text};
use nego_cli::{Status, nego};
use std::alloc::Global;
use std::io::{Read, Write};
use std::marker::Brand;
use std::process::ExitCode;
use std::sync::ledger::{Blank, Ledger};

/// Does what the arguments say over a reader and two writers. Where memory for the list of words is refused, it ends with
/// that, and nothing is read or put.
pub(crate) fn run<A: Arguments, R: Read, O: Write, E: Write>(
    alloc: Global,
    arguments: &A,
    source: &mut ReaderSource<R>,
    out: &mut WriterSink<O>,
    err: &mut WriterSink<E>,
) -> Status
    ensures says { ((result ≡ Status.Memory) × (source.new ≡ source.old) × (out.new ≡ out.old) × (err.new ≡ err.old))
        ⊎ SaysOfArguments (A.told arguments.now) (counted source.old.faults source.new.faults) (counted out.old.faults out.new.faults) (counted err.old.faults err.new.faults) result }
{
    match argument_words(alloc, arguments) {
        Ok(words) => call::<R, O, E, Brand>(
            alloc,
            words.as_slice(),
            source,
            out,
            err,
            Blank::new(1),
        ),
        Err(_) => Status::Memory,
    }
}

/// Does what the words say. The steps are counted in a ledger of this blank.
fn call<R: Read, O: Write, E: Write, C: Ledger>(
    alloc: Global,
    words: &[Text],
    source: &mut ReaderSource<R>,
    out: &mut WriterSink<O>,
    err: &mut WriterSink<E>,
    blank: Blank,
) -> Status
    requires name { blank.name ≡ C.name }
    requires parts { blank.parts ≡ C.parts }
    requires share { 0 < blank.parts }
    ensures says { Says words.now (counted source.old.faults source.new.faults) (counted out.old.faults out.new.faults) (counted err.old.faults err.new.faults) result }
{
    let mut steps = Steps::<C>::open(blank);
    nego(alloc, words, source, out, err, &mut steps)
}

/// The exit status of the program.
pub(crate) fn exit_code(status: Status) -> ExitCode
    ensures { exit_status result ≡ status_number status }
{
    ExitCode::from(status.number())
}
