//! The hull of one set of ids of distinct points.
//!
//! [`hull`] returns the hull of a set of any dimension, and [`extremes`] its extreme ids alone. For a solid set
//! Quickhull makes a closed surface of triangles, [`surface`], and the faces are gathered from its triangles plane by
//! plane. The hull of a set in a point, a line or a plane is made directly: a point, the segment between the ends of
//! the line, or the polygon in the plane.
//!
//! For a large set the interior filter first drops most of the points that are inside ([`interior`], by the regions of
//! [`regions`]). `qh_surface` makes the surface. A walk finds the triangles of one plane (`plane_walk`), and `faces` makes
//! the polygon from them. `qh_bodies` sorts the faces and counts their edges, and `solids` makes the hull from them.
//! `gathered` puts the points of a set next to each other. `blocking` has the rules of how a set is divided, for this
//! crate and those above. `flat_sets` makes the hulls of sets in a line or a plane, by `segment`, which finds the ends of a
//! line, and `normals`, the side from which a polygon is seen.
#![tactic(auto)]

mod blocking;
mod bodies;
mod faces;
mod flat_sets;
mod gathered;
mod hulls;
pub mod interior;
mod normals;
mod plane_walk;
pub mod regions;
mod segment;
mod solids;

pub use blocking::{Allowance, BLOCK_ALONE, TELLING, WHOLE_ALONE, are_few, block_size};
pub use faces::{PartedFaces, parted_faces};
pub use hulls::{extremes, extremes_unculled, few_are_extreme, hull};
pub use interior::cull_interior;
pub use qh_surface::surface;
