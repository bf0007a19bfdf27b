//! Points of a set in blocks, so that a test of a plane examines few points.
//!
//! The ids of a set are ordered so that neighbours in the list are near each other in space. Each 16, 64 and so on
//! consecutive positions have a block (`places`, `levels`): a box (`boxes`), a direction, and how far the points of the
//! block reach along it (`slabs`). Planes with similar normals are one bundle (`bundles`, `spans`). A block is skipped
//! for the whole bundle if its direction and its box prove that it is below. A guess tests a plane alone (`tangents`).
//!
//! Directions and bundles are guesses (`outward`). A wrong guess costs time, and no result depends on it. A search may
//! have a budget (`budget`), and is given up when that is exhausted.
#![tactic(auto)]

mod boxes;
mod budget;
mod bundles;
mod levels;
mod outward;
mod places;
mod slabs;
mod spans;
mod tangents;

pub use boxes::PointBox;
pub use budget::Budget;
pub use outward::Outward;
pub use places::{Near, Places};
pub use tangents::Tangent;
