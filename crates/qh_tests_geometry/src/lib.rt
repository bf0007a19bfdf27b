//! Tests of the public functions of qh_model, qh_pred, qh_polygon, qh_lattice, qh_plane, qh_mesh, qh_surface, qh_bodies
//! and qh_block: cuts, polygons, predicates, maps, distinct points, shapes, closed surfaces, and hulls of sets of ids.
#![tactic(auto)]

#[cfg(test)]
mod tests;
