//! The program: the real streams and the words of the command line, handed to the top call.
#![tactic(auto)]

mod run;
mod streams;
#[cfg(test)]
mod tests;
mod words;

use nego_cli::Status;
use run::{exit_code, run};
use std::io;
use std::io::BufReader;
use std::process::ExitCode;
use streams::{ReaderSource, WriterSink};
use words::SystemArguments;

fn main(rt: HostRuntime) -> ExitCode {
    let Ok(input) = BufReader::new(rt.alloc(), rt.reader()) else {
        return exit_code(Status::Memory);
    };
    let arguments = SystemArguments { rt: &rt };
    let stderr = rt.stderr();
    let mut source = ReaderSource::new(input);
    let mut out = WriterSink::new(io::writer(&rt));
    let mut err = WriterSink::new(io::writer(&stderr));
    exit_code(run(rt.alloc(), &arguments, &mut source, &mut out, &mut err))
}
