//! A sink over a writer of std.
ghost use Rattle.std.specs.Prelude.{◌≡◌};

use crate::sink::{Sink, SinkFault};
use std::io::Write;

/// A sink over a writer of std. A write that accepts no byte counts as a failure.
#[derive(Drop)]
pub struct StdSink<W: Write + Drop> {
    writer: W,
    failures: u64,
    flushed: bool,
}

impl<W: Write + Drop> StdSink<W> {
    /// Creates a sink that passes its bytes to `writer`.
    pub fn new(writer: W) -> StdSink<W>
        ensures went { ⟦<StdSink<W> as Sink>⟧.went result ≡ W.contents writer }
        ensures count { ⟦<StdSink<W> as Sink>⟧.count result ≡ 0 }
    {
        StdSink {
            writer,
            failures: 0,
            flushed: true,
        }
    }
}

impl<W: Write + Drop> Sink for StdSink<W> {
    ghost went = { λ s. W.contents s.writer };

    ghost count = { λ s. s.failures };

    ghost is_flushed = { λ s. s.flushed };

    fn write(&mut self, bytes: &[u8]) -> Result<usize, SinkFault> {
        self.flushed = false;
        match self.writer.write(bytes) {
            Ok(taken) if taken > 0 => Ok(taken),
            _ => {
                self.failures += 1;
                Err(SinkFault)
            }
        }
    }

    fn flush(&mut self) -> Result<(), SinkFault> {
        if self.writer.flush().is_err() {
            self.failures += 1;
            return Err(SinkFault);
        }
        self.flushed = true;
        Ok(())
    }

    fn failures(&self) -> u64 {
        self.failures
    }
}
