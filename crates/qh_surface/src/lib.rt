//! The surface of a solid set of ids of distinct points, by Quickhull: a closed surface of triangles over the ids. No
//! triangle strictly sees a point of the set.
//!
//! `quickhull` computes it over positions of the points, from what [`starts`] chooses. `outside_sets` has the points that
//! are still to be added. `named_mesh` maps corners to ids. `walk` finds the
//! connected triangles that pass a test: those that a point sees, or, in crates above this one, those of one plane.
#![tactic(auto)]

mod named_mesh;
mod outside_sets;
mod quickhull;
pub mod starts;
pub mod walk;

pub use named_mesh::NamedMesh;
pub use quickhull::{plane_of, surface, surface_along, surface_from};
