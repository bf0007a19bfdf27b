//! Devices for tests.
ghost use Rattle.std.specs.Prelude.{◌≡◌, ◌+◌, ◌-◌, ◌^◌, ◌<◌, [], Some};

use crate::sink::{Sink, SinkFault};
use std::alloc::Global;

/// When a [`FailSink`] fails.
#[derive(Clone, Copy, Debug)]
pub struct SinkPlan {
    /// The greatest number of bytes of one write, at least 1.
    pub greatest_piece: usize,
    /// The total number of bytes that the sink accepts; the write after them fails.
    pub room: usize,
    /// The number, from 1, of a write that fails; `None` if no write fails by its number.
    pub failing_write: Option<u64>,
    /// True if each flush fails.
    pub flush_fails: bool,
}

/// A sink that keeps the bytes and fails according to a plan.
#[derive(Debug, Drop)]
pub struct FailSink {
    bytes: Vec<u8>,
    failures: u64,
    writes: u64,
    flushed: bool,
    plan: SinkPlan,
}

impl FailSink {
    ghost use Rattle.qh_write.specs.contract.Devices.{kept_before_failing, plan_of};

    /// Creates a sink that has received nothing yet and fails according to `plan`.
    pub fn new(alloc: Global, plan: SinkPlan) -> FailSink
        ensures empty { kept_before_failing result ≡ [] }
        ensures count { ⟦<FailSink as Sink>⟧.count result ≡ 0 }
        ensures plan { plan_of result ≡ plan }
    {
        FailSink {
            bytes: Vec::new(alloc),
            failures: 0,
            writes: 0,
            flushed: true,
            plan,
        }
    }

    /// Returns the received bytes, oldest first.
    pub fn bytes(&self) -> &[u8]
        ensures { result.now ≡ kept_before_failing self.now }
    {
        self.bytes.as_slice()
    }

    fn fail(&mut self) -> SinkFault
        requires { self.old.failures < 2 ^ 64 - 1 }
        ensures { self.new ≡ record self.old { failures = self.old.failures + 1 } }
    {
        self.failures += 1;
        SinkFault
    }
}

impl Sink for FailSink {
    ghost went = { λ s. Some s.bytes.items };

    ghost count = { λ s. s.failures };

    ghost is_flushed = { λ s. s.flushed };

    fn write(&mut self, bytes: &[u8]) -> Result<usize, SinkFault> {
        self.writes = self.writes.saturating_add(1);
        self.flushed = false;
        let room = self.plan.room.saturating_sub(self.bytes.len());
        if self.plan.failing_write == Some(self.writes) || room == 0 {
            return Err(self.fail());
        }
        let greatest = self.plan.greatest_piece.max(1);
        let count = bytes.len().min(greatest).min(room);
        if self.bytes.extend_from_slice(&bytes[..count]).is_err() {
            return Err(self.fail());
        }
        Ok(count)
    }

    fn flush(&mut self) -> Result<(), SinkFault> {
        if self.plan.flush_fails {
            return Err(self.fail());
        }
        self.flushed = true;
        Ok(())
    }

    fn failures(&self) -> u64 {
        self.failures
    }
}
