//! Whole-number maps that make a set extend about equally in all directions, and keep its hull.
//!
//! Many steps of a hull use axis-parallel boxes, which bound a set badly if it is long or flat in another direction.
//! [`reduced`] maps the set by a linear map of whole numbers whose determinant is above 0. Nothing is rounded, and the
//! hull stays the same, by the laws of [`laws`]: the extreme ids are the same, and faces have the same corners in the
//! same order.
//!
//! The map is a guess: steps that add one row to another (`basis`) make the covariances of a sample (`form`) small, and
//! each row is scaled to the range of coordinates. The determinant of the guess ([`LatticeMap`]'s `new`) and the range
//! of each image are tested, so no result depends on the guess.
#![tactic(auto)]

mod basis;
mod form;
mod lattice_map;
pub mod laws;
mod reducing;
mod row;

pub use reducing::reduced;
