//! Sources for tests: one that fails at a chosen read, and one that never ends.
ghost use Rattle.std.specs.Prelude.{◌≡◌, ◌<◌, ◌↔◌, Option, Some, None, IsTrue};

use crate::source::{DeviceFault, Source};

/// The bytes of a slice, in pieces of a limited length, with one read that fails.
#[derive(Drop)]
pub struct FailSource<'a> {
    rest: &'a [u8],
    /// The greatest number of bytes that a read returns.
    pub greatest_piece: usize,
    /// The number of the read that fails, counted from 1 at the next read.
    pub fails_at: Option<u64>,
    failures: u64,
    ghost some_piece: { 0 < greatest_piece },
}

impl<'a> FailSource<'a> {
    /// Creates a source of these bytes, each of whose reads returns at most `greatest_piece` bytes.
    ///
    /// The read with the number `fails_at`, from 1, fails. If it is `None` or 0, no read fails.
    pub fn new(bytes: &'a [u8], greatest_piece: usize, fails_at: Option<u64>) -> FailSource<'a>
        requires { 0 < greatest_piece }
        ensures bytes { ⟦<FailSource<'a> as Source>⟧.remaining result ≡ Some bytes.now }
        ensures failures { ⟦<FailSource<'a> as Source>⟧.failure_count result ≡ 0 }
        ensures piece { result.greatest_piece ≡ greatest_piece }
        ensures failing { result.fails_at ≡ fails_at }
    {
        FailSource {
            rest: bytes,
            greatest_piece,
            fails_at,
            failures: 0,
        }
    }

    /// Counts a read. Returns true if it fails.
    fn is_failing(&mut self) -> bool
        ensures failing { IsTrue result ↔ (self.old.fails_at ≡ Some 1) }
        ensures rest { self.new.rest ≡ self.old.rest }
        ensures failures { self.new.failures ≡ self.old.failures }
    {
        match self.fails_at {
            Some(1) => {
                self.fails_at = None;
                true
            }
            Some(at) => {
                self.fails_at = Some(at.saturating_sub(1));
                false
            }
            None => false,
        }
    }
}

impl<'a> Source for FailSource<'a> {
    ghost remaining = { λ s. Some s.rest.now };

    ghost failure_count = { λ s. s.failures };

    fn read(&mut self, buf: &mut [u8]) -> Result<usize, DeviceFault> {
        if self.is_failing() {
            self.failures += 1;
            return Err(DeviceFault);
        }
        let count = self.rest.len().min(buf.len()).min(self.greatest_piece);
        let (piece, rest) = self.rest.split_at(count);
        buf[..count].copy_from_slice(piece);
        self.rest = rest;
        Ok(count)
    }

    fn failures(&self) -> u64 {
        self.failures
    }
}

/// An endless source of bytes 32. Its bytes are unknown to contracts, and it never fails.
#[derive(Clone, Copy, Debug)]
pub struct Spaces;

impl Source for Spaces {
    ghost remaining = { λ _. None };

    ghost failure_count = { λ _. 0 };

    fn read(&mut self, buf: &mut [u8]) -> Result<usize, DeviceFault> {
        buf.fill(b' ');
        Ok(buf.len())
    }

    fn failures(&self) -> u64 {
        0
    }
}
