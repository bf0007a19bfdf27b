//! A runtime that replaces the system: words, an input, and streams that compare their bytes with expected ones.

use std::alloc::{Allocator, Global};
use std::env::FillError;
use std::fmt::Display;
use std::io;
use std::io::{BufRead, ErrorKind, Lines};
use std::rt::Env;
use std::sync::atomic::{AtomicUsize, Ordering};
use std::thread::Threads;

/// The byte count that a stream reports if one of its bytes differed from the expected one.
const WRONG: usize = 18446744073709551615;

/// A stream: its expected bytes, the number of bytes received, and its capacity.
#[derive(Drop)]
pub struct Stream<'a> {
    wanted: &'a [u8],
    came: AtomicUsize,
    room: usize,
}

impl<'a> Stream<'a> {
    /// Creates a stream that expects these bytes, and that fails once it has received `room` bytes.
    pub fn new(wanted: &'a [u8], room: usize) -> Stream<'a> {
        Stream {
            wanted,
            came: AtomicUsize::new(0),
            room,
        }
    }

    /// Returns true if exactly the expected bytes were received.
    pub fn is_whole(&self) -> bool {
        self.came.load(Ordering::SeqCst) == self.wanted.len()
    }

    /// Returns true if nothing was received.
    pub fn is_untouched(&self) -> bool {
        self.came.load(Ordering::SeqCst) == 0
    }

    /// Receives bytes, or fails if there is no room for them.
    fn take(&self, bytes: &[u8]) -> io::Result<()> {
        let came = self.came.load(Ordering::SeqCst);
        if came.saturating_add(bytes.len()) > self.room {
            return Err(io::Error::from(ErrorKind::Other));
        }
        let rest = self.wanted.get(came..);
        let now = if rest.is_some_and(|rest| rest.starts_with(bytes)) {
            came.saturating_add(bytes.len())
        } else {
            WRONG
        };
        self.came.store(now, Ordering::SeqCst);
        Ok(())
    }
}

/// The runtime, with the memory and the threads of another runtime.
#[derive(Drop)]
pub struct StandIn<'r, 'a, R> {
    pub rt: &'r R,
    pub words: &'a [&'a str],
    pub input: &'a [u8],
    pub output: Stream<'a>,
    pub error: Stream<'a>,
}

impl<R: Threads> Threads for StandIn<'_, '_, R> {}

impl<R: AllocGlobal> Alloc for StandIn<'_, '_, R> {
    type A = Global;

    fn alloc(&self) -> Global {
        self.rt.alloc()
    }
}

impl<R> Env for StandIn<'_, '_, R> {
    fn arg(&self, i: usize, buf: &mut [u8]) -> Result<usize, FillError> {
        let word = self.words.get(i).ok_or(FillError::NotPresent)?;
        let bytes = word.as_bytes();
        if bytes.len() > buf.len() {
            return Err(FillError::TooLong);
        }
        buf[..bytes.len()].copy_from_slice(bytes);
        Ok(bytes.len())
    }

    fn var(&self, _name: &str, _buf: &mut [u8]) -> Result<usize, FillError> {
        Err(FillError::NotPresent)
    }

    fn var_at(&self, _i: usize, _buf: &mut [u8]) -> Result<usize, FillError> {
        Err(FillError::NotPresent)
    }
}

impl<'a, R> Input for StandIn<'_, 'a, R> {
    type Reader = &'a [u8];

    fn read_line<A: Allocator + Clone>(&self, buf: &mut String<A>) -> io::Result<usize> {
        self.reader().read_line(buf)
    }

    fn lines<A: Allocator>(&self, alloc: A) -> Lines<&'a [u8], A> {
        self.reader().lines(alloc)
    }

    fn reader(&self) -> &'a [u8] {
        self.input
    }
}

impl<R: AllocGlobal> Print for StandIn<'_, '_, R> {
    fn print<D: Display + Drop>(&self, value: D) -> io::Result<()> {
        self.output
            .take(value.to_string(self.rt.alloc())?.as_bytes())
    }

    fn println<D: Display + Drop>(&self, value: D) -> io::Result<()> {
        self.print(value)?;
        self.output.take(b"\n")
    }

    fn write_all(&self, bytes: &[u8]) -> io::Result<()> {
        self.output.take(bytes)
    }
}

impl<R: AllocGlobal> Eprint for StandIn<'_, '_, R> {
    fn eprint<D: Display + Drop>(&self, value: D) -> io::Result<()> {
        self.error
            .take(value.to_string(self.rt.alloc())?.as_bytes())
    }

    fn eprintln<D: Display + Drop>(&self, value: D) -> io::Result<()> {
        self.eprint(value)?;
        self.error.take(b"\n")
    }
}
