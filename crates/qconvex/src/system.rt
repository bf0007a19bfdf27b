//! The words and the streams of the system.

use crate::program::run;
use qh_read::StdSource;
use qh_write::{ErrorLines, StdSink};
use std::io::ErrorKind;
use std::process::ExitCode;
use std::rt::Env;
use std::thread::{Threads, available_parallelism};
use std::{env, io};

/// Returns the words of the command line, the program's name first.
fn words<R: Env + AllocGlobal>(rt: &R) -> Result<Vec<String>, ErrorKind> {
    let args = env::args(rt).map_err(|error| error.kind())?;
    args.collect(rt.alloc()).map_err(|_| ErrorKind::OutOfMemory)
}

/// Runs the program with the command line and the standard streams of the system.
pub fn start<R: Env + Input + Print + Eprint + AllocGlobal + Threads + Sync>(rt: &R) -> ExitCode {
    let (mut source, mut sink) = (StdSource::new(rt.reader()), StdSink::new(io::writer(rt)));
    let mut errors = ErrorLines::new(rt);
    // The greatest number if the system does not report how many are available to this process.
    let processors = available_parallelism(rt).map_or(usize::MAX, |count| count.get());
    ExitCode::from(run(
        rt,
        rt.alloc(),
        words(rt),
        processors,
        &mut source,
        &mut sink,
        &mut errors,
    ))
}
