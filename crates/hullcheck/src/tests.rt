//! Worked rows: files with faces of a cube, and the results of the program.

/// The rows of a table, each of which ends in a semicolon.
macro_rules! table {
    ($($row:expr;)*) => { [$($row),*] };
}

mod fakes;
mod judgements;
mod runs;
