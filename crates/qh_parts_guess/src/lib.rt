//! Guesses of what stays of the hulls of parts of a set. The results are checked where they are used (`qh_parts::seam`), so a
//! wrong guess only costs time.
//!
//! A set is cut into parts of consecutive ids along a curve, and some ids belong to every part (`curve`). The facets of
//! a part that stay in the presence of the corners of the other parts are marked, and each of these corners gets a
//! witness (`cut`). If there are few corners, or few facets stay, this does not pay (`worth`). `gap` guesses the
//! polygons that close the gap between the remaining facets.
#![tactic(auto)]

pub mod curve;
mod cut;
pub mod gap;
mod worth;

pub use cut::{Marks, marks_of};
pub use worth::is_worth;
