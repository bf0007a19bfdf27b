//! Data that the tests of several libraries use: point files with their OFF files, files with faults, sets of points, and
//! ids and faces by number. The tests' macros and their bound are here, too.
//!
//! It has no tests of its own, so that test crates use it without proving it again.
#![tactic(auto)]

pub mod faces;
pub mod faults;
pub mod files;
pub mod ids;
pub mod points;

use std::process::Abort;
use std::thread::Threads;

/// What the helpers of tests need of the runtime.
pub trait Host: AllocGlobal + Abort + Threads + Sync {}

impl<R: AllocGlobal + Abort + Threads + Sync> Host for R {}

/// The rows of a table, each of which ends in a semicolon.
#[macro_export]
macro_rules! table {
    ($($row:expr;)*) => { [$($row),*] };
}

/// The result of a call, which is made again if it fails with this error.
#[macro_export]
macro_rules! again {
    ($call:expr, $error:pat) => {
        match $call {
            Err($error) => $call,
            result => result,
        }
    };
}
