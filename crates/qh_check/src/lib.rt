//! A checker of hulls. It checks if faces are the surface of the hull of points, and reports a fault if they are not.
//!
//! [`judge_faces`] takes faces whose corners are indices of points of any list, such as the vertices of a file. It
//! renames their corners to the distinct ids of the same points (`naming`, by `positions`), and maps a long or flat set
//! first (`mapped`). Triangles with an angle at each edge are checked without a hull, by [`convex`]. For all others
//! [`check_surface`] computes the hull of the ids, finds each polygon among its faces (`search`, by `face_table`), and
//! counts the steps from corner to corner (`qh_bodies`). A polygon that is not found is tested by the plane of its first
//! three corners (`faces`). The checker needs no knowledge of how the polygons were computed.
#![tactic(auto)]

mod claim;
mod claims;
pub mod convex;
mod corner_table;
mod face_table;
mod faces;
mod fault;
mod findings;
mod hull_faces;
mod judgement;
mod judging;
mod mapped;
mod naming;
mod own_indices;
mod positions;
mod rounds;
mod search;
mod surfaces;
mod verdict;

pub use claim::ClaimedPolygons;
pub use fault::FaceFault;
pub use judgement::Judgement;
pub use judging::{judge_faces, judge_faces_alone};
pub use surfaces::check_surface;
pub use verdict::SurfaceVerdict;
