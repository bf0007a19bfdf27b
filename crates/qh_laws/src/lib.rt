//! The laws: theorems over the definitions of `qh_model`, without code. Proofs cite the contracts of laws by name.
//!
//! - `existence`: every list of points that is not empty has a hull and a text.
//! - `tree`: parts of a list may be joined in any tree.
//! - `seam`: hulls of parts are joined at a seam.
//! - `convexity`: a closed surface, convex at each edge and met once by a ray, is the hull; a scale keeps the hull.
//!
//! `proofs/` has worked examples of the definitions, too: values for which each holds, and for which it must not hold.
#![tactic(auto)]

pub mod convexity;
pub mod existence;
pub mod seam;
pub mod tree;
