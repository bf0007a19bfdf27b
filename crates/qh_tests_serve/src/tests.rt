//! The tests.

mod outcomes;
mod serve;
mod workers;
