//! Sources of bytes.
ghost use Rattle.std.specs.Prelude.{◌≡◌, ◌≤◌, ◌<◌, ◌+◌, ◌-◌, ◌^◌, ℕ, List, length, Option, Some, IfOk, OnOk, OnErr};
ghost use Rattle.std.specs.Io.KnownBytes.{ReadConsumes};

use std::io::Read;
use std::marker::Model;

/// A device failed.
#[derive(Clone, Copy, Debug, PartialEq, Eq)]
pub struct DeviceFault;

/// A source of bytes, which returns them in pieces of any length. It counts its failures.
pub trait Source {
    /// The bytes that are still to be read, for a source whose bytes are known.
    ghost remaining: { Self → Option (List ℕ) };

    /// The number of reads that failed so far.
    ghost failure_count: { Self → ℕ };

    /// Reads the next bytes into the beginning of `buf`, and returns their number.
    ///
    /// If the buffer is not empty, 0 means the end. A read that fails consumes no byte and adds one to the count of
    /// failures, which has room for it.
    fn read(&mut self, buf: &mut [u8]) -> Result<usize, DeviceFault>
        requires { failure_count self.old < 2 ^ 64 - 1 }
        ensures bound { IfOk result (λ n. n ≤ length buf.new) }
        ensures bytes { ReadConsumes (remaining self.old) (remaining self.new) result buf.new }
        ensures kept { OnOk result (failure_count self.new ≡ failure_count self.old) }
        ensures failed { OnErr result (failure_count self.new ≡ failure_count self.old + 1) };

    /// Returns the number of reads that failed so far.
    fn failures(&self) -> u64
        ensures { result ≡ failure_count self.now };
}

/// The bytes of a slice. It never fails.
///
/// A contract sees the remaining bytes.
#[derive(Drop)]
pub struct MemSource<'a> {
    rest: &'a [u8],
}

impl<'a> Model for MemSource<'a> {
    ghost Value = { List ℕ };

    ghost view = { λ s. s.rest.now };
}

impl<'a> MemSource<'a> {
    /// Creates a source of these bytes.
    pub fn new(bytes: &'a [u8]) -> MemSource<'a>
        ensures { result ≡ bytes.now }
    {
        MemSource { rest: bytes }
    }
}

impl<'a> Source for MemSource<'a> {
    ghost remaining = { λ s. Some s };

    ghost failure_count = { λ _. 0 };

    fn read(&mut self, buf: &mut [u8]) -> Result<usize, DeviceFault> {
        let count = self.rest.len().min(buf.len());
        let (piece, rest) = self.rest.split_at(count);
        buf[..count].copy_from_slice(piece);
        self.rest = rest;
        Ok(count)
    }

    fn failures(&self) -> u64 {
        0
    }
}

/// The bytes of a reader of the standard library. They are known to contracts if that reader's bytes are.
///
/// Each error of the reader counts as a failure, even an interrupted read.
#[derive(Drop)]
pub struct StdSource<R> {
    reader: R,
    failures: u64,
}

impl<R: Read> StdSource<R> {
    /// Creates a source of the remaining bytes of this reader, with no failure yet.
    pub fn new(reader: R) -> StdSource<R>
        ensures bytes { ⟦<StdSource<R> as Source>⟧.remaining result ≡ R.remaining reader }
        ensures failures { ⟦<StdSource<R> as Source>⟧.failure_count result ≡ 0 }
    {
        StdSource {
            reader,
            failures: 0,
        }
    }
}

impl<R: Read> Source for StdSource<R> {
    ghost remaining = { λ s. R.remaining s.reader };

    ghost failure_count = { λ s. s.failures };

    fn read(&mut self, buf: &mut [u8]) -> Result<usize, DeviceFault> {
        match self.reader.read(buf) {
            Ok(count) => Ok(count),
            Err(_) => {
                self.failures += 1;
                Err(DeviceFault)
            }
        }
    }

    fn failures(&self) -> u64 {
        self.failures
    }
}
