//! Lines of text for a person.
ghost use Rattle.std.specs.Prelude.{◌≡◌, ℕ, ◌+◌, ◌-◌, ◌^◌, ◌<◌, List, Option, None, Some, is_ok, if◌then◌else◌};
ghost use Rattle.qh_write.specs.contract.LineDevices.{SendsLine};

use crate::sink::SinkFault;
use std::fmt::Display;

/// A device that takes lines of text, such as the standard error.
pub trait Lines {
    // The bytes written so far, oldest first, or `None` if the device does not specify them.
    ghost went: { Self → Option (List ℕ) };

    // The number of failed calls.
    ghost count: { Self → ℕ };

    /// Writes a value and a line end; or fails after a prefix of them, and counts the failure.
    fn line<D: Display + Drop>(&mut self, value: D) -> Result<(), SinkFault>
        requires room { count self.old < 2 ^ 64 - 1 }
        ensures went { (text : List ℕ) → D.output value ≡ Some text → SendsLine (went self.old) (went self.new) text result }
        ensures count { count self.new ≡ (if is_ok result then count self.old else count self.old + 1) };
}

/// The lines on standard output.
#[derive(Drop)]
pub struct OutLines<'r, R: Print> {
    rt: &'r R,
    failures: u64,
}

impl<'r, R: Print> OutLines<'r, R> {
    /// Creates the lines on the standard output of `rt`, with no failure yet.
    pub fn new(rt: &'r R) -> OutLines<'r, R>
        ensures { ⟦<OutLines<'r, R> as Lines>⟧.count result ≡ 0 }
    {
        OutLines { rt, failures: 0 }
    }
}

impl<R: Print> Lines for OutLines<'_, R> {
    ghost went = { λ _. None };

    ghost count = { λ s. s.failures };

    fn line<D: Display + Drop>(&mut self, value: D) -> Result<(), SinkFault> {
        if self.rt.println(value).is_err() {
            self.failures += 1;
            return Err(SinkFault);
        }
        Ok(())
    }
}

/// The lines on standard error.
#[derive(Drop)]
pub struct ErrorLines<'r, R: Eprint> {
    rt: &'r R,
    failures: u64,
}

impl<'r, R: Eprint> ErrorLines<'r, R> {
    /// Creates the lines on the standard error of `rt`, with no failure yet.
    pub fn new(rt: &'r R) -> ErrorLines<'r, R>
        ensures { ⟦<ErrorLines<'r, R> as Lines>⟧.count result ≡ 0 }
    {
        ErrorLines { rt, failures: 0 }
    }
}

impl<R: Eprint> Lines for ErrorLines<'_, R> {
    ghost went = { λ _. None };

    ghost count = { λ s. s.failures };

    fn line<D: Display + Drop>(&mut self, value: D) -> Result<(), SinkFault> {
        if self.rt.eprintln(value).is_err() {
            self.failures += 1;
            return Err(SinkFault);
        }
        Ok(())
    }
}
