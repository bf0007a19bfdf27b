//! What a run of Quickhull starts from: the points of a set, its ends along the axes, an initial simplex and an order.
//!
//! [`ends_of`] finds the points that are furthest along each axis. [`wide_simplex`] chooses four points that are far apart.
//! [`morton_order`] puts the ids of near points near each other, for any work over many points, and [`Axes`] has places
//! that make a flat or long set about equally large along each axis. [`points_of`] gathers the points of ids.

mod axes;
mod ends;
mod initial_simplex;
mod morton;
mod points;

pub use axes::Axes;
pub use ends::ends_of;
pub use initial_simplex::{Simplex, wide_simplex};
pub use morton::morton_order;
pub use points::points_of;
