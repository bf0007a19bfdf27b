//! The surface of a solid set by Quickhull.
//!
//! A `run` works over the points of the ids, gathered into one list. It identifies each point by its position there,
//! and its mesh has positions as corners. At the end the corners are mapped to ids (`surfaces`). A large set is
//! processed in an order that keeps near points together (`starts::morton_order`). Each point that is not settled
//! is in the outside set of a facet that it is above (`outside_sets`). The facets with an outside set wait in a list
//! (`waiting_facets`, `turns`). In a round the first point of the next facet's set is the apex. A walk over twins finds
//! the facets that it sees (`walk`), and its cone replaces them. The points of the removed facets are tested against
//! the new facets alone: a point above no new facet is above no facet at all (`settling`, `planes`). A cone of many
//! facets is searched, not scanned (`cone_ring`, `cone_search`); otherwise a point under a cone of h facets would cost
//! h tests. When no facet waits, no facet sees a point, and the surface is that of the hull (`surfaces`).
//!
//! Source: Barber, Dobkin and Huhdanpaa 1996.

mod cone_ring;
mod cone_search;
mod planes;
mod run;
mod settling;
mod surfaces;
mod turns;
mod waiting_facets;
mod walk;

pub use planes::plane_of;
pub use surfaces::{surface, surface_along, surface_from};
