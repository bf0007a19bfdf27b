//! Fake files and line devices, which replace those of the system. A file that cannot be read fails at its first read.
ghost use Rattle.std.specs.Prelude.{◌≡◌, None};

use crate::files::Files;
use qh_read::Source;
use qh_read::fakes::FailSource;
use qh_write::{Lines, SinkFault};
use std::alloc::Global;
use std::fmt::{Display, Write};
use std::io::ErrorKind;

/// Named files and a standard input. Files without bytes cannot be read.
#[derive(Drop)]
pub struct FakeFiles<'a> {
    pub named: &'a [(&'a str, Option<&'a str>)],
    pub input: &'a str,
    pub failed: bool,
}

impl<'a> FakeFiles<'a> {
    /// Returns the content of a name, if it is the name of a file.
    fn named(&self, name: &str) -> Option<Option<&'a str>> {
        let mut files = self.named.iter();
        files.find(|(own, _)| *own == name).map(|(_, text)| *text)
    }
}

impl<'a> Files for FakeFiles<'a> {
    type File = FailSource<'a>;

    ghost contents = { λ _ _. None };

    ghost failed = { λ f _. f.failed };

    fn open(&mut self, name: &str) -> Result<FailSource<'a>, ErrorKind> {
        match self.named(name) {
            Some(Some(text)) => Ok(FailSource::new(text.as_bytes(), text.len().max(1), None)),
            Some(None) => Ok(FailSource::new(b"", 1, Some(1))),
            None => {
                self.failed = true;
                Err(ErrorKind::NotFound)
            }
        }
    }

    fn close(&mut self, file: FailSource<'a>, _name: &str) {
        if file.failures() > 0 {
            self.failed = true;
        }
    }

    fn text(&mut self, alloc: Global, name: Option<&str>) -> Result<Vec<u8>, ErrorKind> {
        let text = match name {
            None => Some(self.input),
            Some(name) => self.named(name).unwrap_or(None),
        };
        let Some(text) = text else {
            self.failed = true;
            return Err(ErrorKind::NotFound);
        };
        match Vec::from_slice(alloc, text.as_bytes()) {
            Ok(bytes) => Ok(bytes),
            Err(_) => {
                self.failed = true;
                Err(ErrorKind::OutOfMemory)
            }
        }
    }
}

/// A device that keeps its lines, or one that fails.
#[derive(Drop)]
pub struct FakeLines {
    pub text: String,
    fails: bool,
    failures: u64,
}

impl FakeLines {
    /// Creates a device that keeps its lines.
    pub fn kept(alloc: Global) -> FakeLines
        ensures { result.failures ≡ 0 }
    {
        FakeLines {
            text: String::new(alloc),
            fails: false,
            failures: 0,
        }
    }

    /// Creates a device whose calls all fail.
    pub fn failing(alloc: Global) -> FakeLines
        ensures { result.failures ≡ 0 }
    {
        FakeLines {
            fails: true,
            ..FakeLines::kept(alloc)
        }
    }
}

impl Lines for FakeLines {
    ghost went = { λ _. None };

    ghost count = { λ s. s.failures };

    fn line<D: Display + Drop>(&mut self, value: D) -> Result<(), SinkFault> {
        if self.fails || writeln!(self.text, "{value}").is_err() {
            self.failures += 1;
            return Err(SinkFault);
        }
        Ok(())
    }
}
