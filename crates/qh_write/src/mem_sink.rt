//! A sink that keeps the bytes it receives.
ghost use Rattle.std.specs.Prelude.{◌≡◌, [], Some, true};

use crate::sink::{Sink, SinkFault};
use std::alloc::Global;

/// A sink that keeps the bytes in memory. If its allocation fails, the write fails.
#[derive(Debug, Drop)]
pub struct MemSink {
    bytes: Vec<u8>,
    failures: u64,
}

impl MemSink {
    ghost use Rattle.qh_write.specs.contract.Devices.{kept};

    /// Creates a sink that has received nothing yet and grows with `alloc`.
    pub fn new(alloc: Global) -> MemSink
        ensures empty { kept result ≡ [] }
        ensures count { ⟦<MemSink as Sink>⟧.count result ≡ 0 }
    {
        MemSink {
            bytes: Vec::new(alloc),
            failures: 0,
        }
    }

    /// Returns the received bytes, oldest first.
    pub fn bytes(&self) -> &[u8]
        ensures { result.now ≡ kept self.now }
    {
        self.bytes.as_slice()
    }
}

impl Sink for MemSink {
    ghost went = { λ s. Some s.bytes.items };

    ghost count = { λ s. s.failures };

    ghost is_flushed = { λ _. true };

    fn write(&mut self, bytes: &[u8]) -> Result<usize, SinkFault> {
        if self.bytes.extend_from_slice(bytes).is_err() {
            self.failures += 1;
            return Err(SinkFault);
        }
        Ok(bytes.len())
    }

    fn flush(&mut self) -> Result<(), SinkFault> {
        Ok(())
    }

    fn failures(&self) -> u64 {
        self.failures
    }
}
