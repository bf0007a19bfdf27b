//! The hull of a set from hulls of its parts, computed in parallel.
//!
//! [`hull_in_parts`] has the contract of `qh_block::hull`. The ids of a large set are ordered along a curve and cut
//! into pieces. A thread for each piece makes a part with a finished mesh (`pieces`). `qh_parts_guess` guesses which
//! facets of each part stay among the other parts, and [`seam`] verifies the guess, again in threads (`given`). The
//! polygons that stay and those that close the gap between them, a guess of `qh_parts_guess` (`joint`), are the hull,
//! which `qh_parts_join::join` builds (`joining`, `hulls`). If few ids are corners of parts, or few facets stay, the
//! hull of the corners is taken. If a guess is not verified, that of all ids is taken, by `qh_block::hull`.
#![tactic(auto)]

mod given;
mod hulls;
mod joining;
mod joint;
mod pieces;
pub mod seam;

pub use hulls::{Parting, Seams, hull_by_parts, hull_in_parts};
