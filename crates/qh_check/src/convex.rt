//! Checks whether triangles are the hull of points by a look at each edge, and one ray.
//!
//! A closed surface of triangles is the hull of its corners where the neighbour over each edge lies strictly below,
//! some place lies strictly below all triangles, and a ray from there meets the surface once. `qh_laws::convexity` has
//! the proof, and this module looks: `triangles` takes the polygons, `rays` casts the ray, `corners` compares the
//! corners with the ids, `steps` sorts the steps round the triangles, `pairs` looks at the two along each edge, and
//! `hidden` finds for each id that is no corner a triangle over it, along a `curve`. No hull is made.
//!
//! Source: Mehlhorn, Naeher, Seel, Seidel, Schilz, Schirra and Uhrig 1999 (checking geometric programs).

mod corners;
mod curve;
mod hidden;
mod pairs;
mod rays;
mod sharp;
mod steps;
mod triangles;

pub use sharp::is_sharp_surface;
