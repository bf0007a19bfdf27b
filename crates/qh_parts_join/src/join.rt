//! The hull of a set from the faces that its parts contribute, and polygons that close the gap between them.
//!
//! The polygons that close the gap may be any: that each is a face of what is kept of all parts (`kept`) is tested here
//! (`bridges`), by the corners of each part that its plane comes near (`near_parts`). They and the faces that stay
//! close up where they have the border of the faces that go. Together they are then all faces of the set (`joined`).

mod bridges;
mod joined;
mod kept;
mod near_parts;
mod three;

pub use joined::join_faces;
pub use kept::{Kept, corners_of};
