//! Sinks for texts.
ghost use Rattle.std.specs.Prelude.{◌≡◌, ℕ, ◌+◌, ◌-◌, ◌^◌, ◌<◌, ◌≤◌, List, Bool, true, Option, IfOk, OnOk, length, is_ok, if◌then◌else◌};
ghost use Rattle.std.specs.Io.KnownBytes.{WriteAppends, Keeps};

/// A sink failed.
#[derive(Clone, Copy, Debug, PartialEq, Eq)]
pub struct SinkFault;

/// A device that receives bytes.
pub trait Sink {
    // The bytes received, oldest first, or `None` if the device does not specify them.
    ghost went: { Self → Option (List ℕ) };

    // The number of failed calls.
    ghost count: { Self → ℕ };

    // True if the device buffers no bytes.
    ghost is_flushed: { Self → Bool };

    /// Accepts a prefix of `bytes`, at least one byte, and returns its length; or fails, accepts nothing and counts the
    /// failure.
    fn write(&mut self, bytes: &[u8]) -> Result<usize, SinkFault>
        requires some { 0 < length bytes.now }
        requires room { count self.old < 2 ^ 64 - 1 }
        ensures took { IfOk result (λ n. (0 < n) × (n ≤ length bytes.now)) }
        ensures went { WriteAppends (went self.old) (went self.new) result bytes.now }
        ensures count { count self.new ≡ (if is_ok result then count self.old else count self.old + 1) };

    /// Sends the bytes that the device still buffers; or fails and counts the failure.
    fn flush(&mut self) -> Result<(), SinkFault>
        requires room { count self.old < 2 ^ 64 - 1 }
        ensures flushed { OnOk result (is_flushed self.new ≡ true) }
        ensures went { Keeps (went self.old) (went self.new) }
        ensures count { count self.new ≡ (if is_ok result then count self.old else count self.old + 1) };

    /// Returns the number of failed calls.
    fn failures(&self) -> u64
        ensures { result ≡ count self.now };
}
