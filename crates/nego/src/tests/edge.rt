//! The program's edge over readers, writers and arguments that are made.

use crate::run::run;
use crate::streams::{ReaderSource, WriterSink};
use crate::tests::calls::{REDUCTION, SET, USAGE};
use crate::words::SystemArguments;
use nego_base::Text;
use nego_cli::Status;
use std::alloc::Global;
use std::env::FillError;
use std::io;
use std::io::{Read, Write};
use std::process::Abort;
use std::rt::Env;
use std::test::Fail;

/// A reader of these bytes that gives three at a time, and whose call of this number fails.
#[derive(Drop)]
struct Three<'a> {
    rest: &'a [u8],
    calls: u32,
    failing: Option<u32>,
}

impl Read for Three<'_> {
    fn read(&mut self, buf: &mut [u8]) -> io::Result<usize> {
        let call = self.calls;
        self.calls = call.saturating_add(1);
        if self.failing == Some(call) {
            return Err(io::Error::from(io::ErrorKind::Other));
        }
        let count = self.rest.len().min(buf.len()).min(3);
        let (front, rest) = self.rest.split_at(count);
        buf[..count].copy_from_slice(front);
        self.rest = rest;
        Ok(count)
    }
}

/// A writer that takes two bytes at a time, and nothing from the call of this number on.
#[derive(Drop)]
struct Two {
    taken: Text,
    calls: u32,
    closed: u32,
}

impl Write for Two {
    fn write(&mut self, buf: &[u8]) -> io::Result<usize> {
        let call = self.calls;
        self.calls = call.saturating_add(1);
        if call >= self.closed {
            return Ok(0);
        }
        let count = buf.len().min(2);
        match self.taken.extend_from_slice(&buf[..count]) {
            Ok(()) => Ok(count),
            Err(_) => Err(io::Error::from(io::ErrorKind::OutOfMemory)),
        }
    }

    fn flush(&mut self) -> io::Result<()> {
        Ok(())
    }
}

/// A system that gives these arguments.
#[derive(Drop)]
struct Given {
    arguments: &'static [&'static [u8]],
}

impl Env for Given {
    fn arg(&self, i: usize, buf: &mut [u8]) -> Result<usize, FillError> {
        let argument = self.arguments.get(i).ok_or(FillError::NotPresent)?;
        if argument.len() > buf.len() {
            return Err(FillError::TooLong);
        }
        buf[..argument.len()].copy_from_slice(argument);
        Ok(argument.len())
    }

    fn var(&self, _name: &str, _buf: &mut [u8]) -> Result<usize, FillError> {
        Err(FillError::NotPresent)
    }

    fn var_at(&self, _i: usize, _buf: &mut [u8]) -> Result<usize, FillError> {
        Err(FillError::NotPresent)
    }
}

/// A call of the program: its arguments, which call of the reader fails, from which call on the writer of `out` is closed,
/// and what comes of it.
#[derive(Clone, Copy)]
struct Row {
    arguments: &'static [&'static [u8]],
    failing: Option<u32>,
    closed: u32,
    status: Status,
    out: &'static [u8],
    err: &'static [u8],
    faults: [u64; 3],
}

const DONE: Row = Row {
    arguments: &[b"nego", b"reduce"],
    failing: None,
    closed: 1000,
    status: Status::Done,
    out: REDUCTION,
    err: b"",
    faults: [0, 0, 0],
};

const UNTOLD: Row = Row {
    status: Status::Words,
    out: b"",
    err: USAGE,
    ..DONE
};

const READ_FAULT: Row = Row {
    status: Status::ReadFault,
    out: b"",
    err: b"read fault\n",
    faults: [1, 0, 0],
    ..DONE
};

const WRITE_FAULT: Row = Row {
    status: Status::WriteFault,
    err: b"write fault\n",
    faults: [0, 1, 0],
    ..DONE
};

/// An argument that is longer than any word.
const LONG: &[u8] = &[b'x'; 4097];

static ROWS: [Row; 9] = [
    DONE,
    Row {
        arguments: &[],
        ..UNTOLD
    },
    Row {
        arguments: &[b"nego", b"reduce", b"x"],
        ..UNTOLD
    },
    // An argument that isn't UTF-8, or is too long, is a word, and the words go on behind it.
    Row {
        arguments: &[b"nego", b"reduce", b"\xff"],
        ..UNTOLD
    },
    Row {
        arguments: &[b"nego", b"reduce", LONG],
        ..UNTOLD
    },
    Row {
        failing: Some(0),
        ..READ_FAULT
    },
    Row {
        failing: Some(9),
        ..READ_FAULT
    },
    Row {
        closed: 0,
        out: b"",
        ..WRITE_FAULT
    },
    Row {
        closed: 3,
        out: b"certif",
        ..WRITE_FAULT
    },
];

/// A writer that is closed from this call on.
fn writer(alloc: Global, closed: u32) -> WriterSink<Two> {
    WriterSink::new(Two {
        taken: Text::new(alloc),
        calls: 0,
        closed,
    })
}

/// That the program's call ends as the row says.
fn ends(rt: &impl Abort, alloc: Global, row: &Row, i: usize) {
    let given = Given {
        arguments: row.arguments,
    };
    let mut source = ReaderSource::new(Three {
        rest: SET,
        calls: 0,
        failing: row.failing,
    });
    let mut out = writer(alloc, row.closed);
    let mut err = writer(alloc, 1000);
    let arguments = SystemArguments { rt: &given };
    let status = run(alloc, &arguments, &mut source, &mut out, &mut err);
    assert!(rt; status == row.status, "row {i}");
    assert!(rt; out.writer.taken.as_slice() == row.out, "row {i}");
    assert!(rt; err.writer.taken.as_slice() == row.err, "row {i}");
    assert!(rt;
        [source.faults, out.faults, err.faults] == row.faults,
        "row {i}"
    );
}

/// That all these calls end so.
pub(crate) fn calls_end(rt: &impl Abort, alloc: Global) -> Result<(), Fail> {
    for (i, row) in ROWS.iter().enumerate() {
        ends(rt, alloc, row, i);
    }
    Ok(())
}
