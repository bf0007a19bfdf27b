//! The tests of each library.

mod faces;
mod read;
mod write;
