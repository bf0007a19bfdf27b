//! Tests of the program over fake streams. The rows of command lines are in `qh_command`, those of `answer` and `serve` in
//! `qh_tests_serve`.

/// The rows of a table, each of which ends in a semicolon.
macro_rules! table {
    ($($row:expr;)*) => { [$($row),*] };
}

mod programs;
mod refusals;
mod stand_in;
