//! Closed surfaces of triangles, and the step by which Quickhull grows them: the cone from a point to the horizon
//! replaces the facets that the point sees.
//!
//! A [`Mesh`] stores its facets in one vector of places, each with its corners and the half-edges across its sides.
//! Facets and half-edges are identified by numbers; only this crate computes with those of half-edges. A new facet
//! reuses the place of a removed one, if there is one, before the vector grows. A contract sees the mesh as the list of
//! its places, whose surface is defined in `qh_model/specs/contract/StoredSurface.antt`.
//!
//! Source: Barber, Dobkin and Huhdanpaa 1996 (facets with neighbours, the horizon, the cone).
#![tactic(auto)]

mod cone;
mod facets;
mod horizon;
mod live;
mod mesh;
mod places;
mod rebuild;
mod room;
mod simplex;
mod slots;

pub use facets::EdgeNo;
pub use live::Live;
pub use mesh::Mesh;
pub use qh_model::FacetNo;
