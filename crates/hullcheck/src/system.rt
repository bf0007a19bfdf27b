//! The words, the files and the streams of the system.
ghost use Rattle.std.specs.Prelude.{None};

use crate::files::Files;
use crate::program::run;
use qh_read::{Source, StdSource};
use qh_write::{ErrorLines, OutLines};
use std::alloc::Global;
use std::io::{ErrorKind, Read};
use std::process::ExitCode;
use std::rt::Env;
use std::thread::{Threads, available_parallelism};
use std::{env, fs, io, rt};

/// Returns all bytes of a reader.
fn bytes_of<S: Read + Drop>(alloc: Global, mut reader: S) -> io::Result<Vec<u8>> {
    let mut bytes = Vec::new(alloc);
    reader.read_to_end(&mut bytes)?;
    Ok(bytes)
}

/// The files of the system.
#[derive(Drop)]
struct SystemFiles<'r, R> {
    rt: &'r R,
    failed: bool,
}

impl<R: rt::Files + Input> Files for SystemFiles<'_, R> {
    type File = StdSource<R::File>;

    ghost contents = { λ _ _. None };

    ghost failed = { λ s _. s.failed };

    fn open(&mut self, name: &str) -> Result<StdSource<R::File>, ErrorKind> {
        match fs::open(self.rt, name) {
            Ok(file) => Ok(StdSource::new(file)),
            Err(error) => {
                self.failed = true;
                Err(error.kind())
            }
        }
    }

    fn close(&mut self, file: StdSource<R::File>, _name: &str) {
        if file.failures() > 0 {
            self.failed = true;
        }
    }

    fn text(&mut self, alloc: Global, name: Option<&str>) -> Result<Vec<u8>, ErrorKind> {
        let text = match name {
            None => bytes_of(alloc, self.rt.reader()),
            Some(path) => fs::open(self.rt, path).and_then(|file| bytes_of(alloc, file)),
        };
        match text {
            Ok(bytes) => Ok(bytes),
            Err(error) => {
                self.failed = true;
                Err(error.kind())
            }
        }
    }
}

/// Returns the words of the command line, the program's name first.
fn words<R: Env + AllocGlobal>(rt: &R) -> Result<Vec<String>, ErrorKind> {
    let args = env::args(rt).map_err(|error| error.kind())?;
    args.collect(rt.alloc()).map_err(|_| ErrorKind::OutOfMemory)
}

/// Runs the program with the command line, the files and the standard streams of the system.
pub fn start<R: Env + rt::Files + Input + Print + Eprint + AllocGlobal + Threads + Sync>(
    rt: &R,
) -> ExitCode {
    let mut files = SystemFiles { rt, failed: false };
    let (mut output, mut errors) = (OutLines::new(rt), ErrorLines::new(rt));
    // The greatest number if the system does not report how many are available to this process.
    let processors = available_parallelism(rt).map_or(usize::MAX, |count| count.get());
    ExitCode::from(run(
        rt,
        rt.alloc(),
        words(rt),
        processors,
        &mut files,
        &mut output,
        &mut errors,
    ))
}
