//! The program `hullcheck`: checks whether faces, written by any program, are the convex hull of points.
//!
//! `command_line` parses the settings. `judging` reads points and faces and calls `judge_faces` of qh_check. `answer`
//! and `fault` define what is written, and the exit statuses. `program` connects these to the words, the `files` and the
//! output lines. `system` supplies those of the operating system.
#![tactic(auto)]

mod answer;
mod command_line;
mod fault;
mod files;
mod judging;
mod program;
mod system;
#[cfg(test)]
mod tests;

use std::process::ExitCode;

fn main(rt: HostRuntime) -> ExitCode {
    system::start(&rt)
}
