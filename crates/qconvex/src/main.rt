//! The program `qconvex`: reads points and writes the requested outputs.
//!
//! `program` runs `serve` of qh_serve between the words of a command line, a source and two sinks. `system` supplies those
//! of the operating system.
#![tactic(auto)]

mod program;
mod system;
#[cfg(test)]
mod tests;

use std::process::ExitCode;

fn main(rt: HostRuntime) -> ExitCode {
    system::start(&rt)
}
