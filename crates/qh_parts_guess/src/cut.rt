//! The facets of a part's hull that stay in the presence of the corners of the other parts.
//!
//! A facet is removed, together with all facets of its plane, if a point of the other parts is not strictly below it.
//! The facets that a point sees are connected, so few facets are tested. A point outside the part sees the facet
//! through which the ray to it leaves (`rays`), so that facet is removed (`cover`). Then the neighbours of removed
//! facets are tested, until all facets around them stay (`cutting`).
mod cover;
mod cutting;
mod facets;
mod marking;
mod rays;
mod recent;

pub(crate) use cutting::Others;
pub(crate) use facets::Facets;
pub use marking::{Marks, marks_of};
