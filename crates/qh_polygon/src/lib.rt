//! The shape of a set of points, and the polygon of a set that lies in one plane; also lists of ids in rising order.
//!
//! Shapes and polygons are computed with the exact predicates of `qh_pred`, and places are ordered by whole numbers, so
//! no result is rounded.
#![tactic(auto)]

mod chains;
mod dimension;
mod id_lists;
mod id_marks;
mod inner_places;
mod place_keys;
mod planar;
mod ranking;
mod shape;

pub use id_lists::rising_ids;
pub use id_marks::marked_ids;
pub use inner_places::outer_ids;
pub use place_keys::{ROOM, biased, place_in, place_key, place_key_id, point_keys};
pub use planar::polygon;
pub use ranking::rank;
pub use shape::Shape;
