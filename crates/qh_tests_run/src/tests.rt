//! The tests.

mod board;
mod hull;
mod run;
