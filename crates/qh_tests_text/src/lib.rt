//! Tests of the public functions of qh_read and qh_write: point files and OFF files, faces of files, and the texts of
//! hulls.
//!
//! They are in a separate crate so that checking the proofs of the libraries does not include them: a crate that
//! contains tests is proved a second time with its tests.
#![tactic(auto)]

#[cfg(test)]
mod tests;
