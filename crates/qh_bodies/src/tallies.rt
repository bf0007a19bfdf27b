//! The corners of polygons, the number of their edges, and the hull with these faces.
ghost use Rattle.std.specs.Prelude.{◌≡◌, ℕ, List, IfOk};
ghost use Rattle.std.specs.List.{flat_map};
ghost use Rattle.qh_model.specs.contract.{ClosedPolygons.AreClosedFaces, IdSets.HasDistinctPoints};
ghost use Rattle.qh_model.specs.headline.{Dimension.IsDimension, Hull.IsBody, Polygons.RiseStrictly};
ghost use Rattle.qh_model.specs.headline.{Sets.Members, Vector.Vector};
ghost use Rattle.qh_bodies.specs.contract.Tallies.{all_members, IsTally};
ghost use Rattle.qh_bodies.specs.steps.{FaceKeys.triangle_in, PartTallies.IsTallyWith};

use crate::face_keys::triangle_in;
use crate::solid_edges::edges_with;
use qh_model::{Body, Id, Memory, Polygon};
use qh_polygon::rising_ids;
use std::alloc::{AllocError, Global};

/// Returns the ids of the triangles of keys, one after the other.
fn ids_of_keys(alloc: Global, keys: &[u64]) -> Result<Vec<Id>, AllocError>
    ensures { IfOk result (λ v. v.items ≡ flat_map triangle_in keys.now) }
{
    let mut ids = Vec::with_capacity(alloc, keys.len().saturating_mul(3))?;
    for key in keys {
        ids.extend_from_slice(triangle_in(*key).ids())?;
    }
    Ok(ids)
}

/// Returns the ids of polygons, one after the other.
pub fn listed_ids(alloc: Global, polygons: &[Polygon]) -> Result<Vec<Id>, AllocError>
    ensures { IfOk result (λ v. v.items ≡ all_members polygons.now) }
{
    let mut ids = Vec::new(alloc);
    for polygon in polygons {
        ids.extend_from_slice(polygon.ids())?;
    }
    Ok(ids)
}

/// The extreme ids and the number of edges of a solid set, computed from its faces.
#[derive(Drop)]
pub struct Tally {
    /// The corners of the faces, rising, each once: the extreme ids.
    pub extremes: Vec<Id>,
    /// The number of edges of the faces.
    pub edges: u64,
}

/// Returns the tally of triangles, given by their keys, and of other polygons, given by their ids, one after the other,
/// and the number of their steps to a higher id.
///
/// # Errors
///
/// `Memory` if an allocation failed.
pub fn tally_with(alloc: Global, keys: &[u64], listed: &[Id], more: u64) -> Result<Tally, Memory>
    ensures { IfOk result (IsTallyWith keys.now listed.now more) }
{
    let mut all = ids_of_keys(alloc, keys)?;
    all.extend_from_slice(listed)?;
    let extremes = rising_ids(alloc, &all)?;
    let edges = edges_with(keys, more)?;
    Ok(Tally { extremes, edges })
}

/// Returns the hull of a solid set, from its faces in rising lexicographic order, and their tally.
///
/// The caller ensures that the polygons are faces of the set, at least one, and that they close up: each step from a
/// corner to the next is taken as often as the step back. Then they are all faces of the set
/// (`laws::closed_faces_are_hull`).
pub fn body_of_faces(polygons: Vec<Polygon>, tally: Tally) -> Body
    requires { IsTally polygons.items tally }
    ensures { (at : ℕ → Vector) (ids : List ℕ) → HasDistinctPoints at (Members ids) → IsDimension at (Members ids) 3
        → AreClosedFaces at (Members ids) polygons.items → RiseStrictly polygons.items → IsBody at (Members ids) result }
{
    Body {
        dim: 3,
        extremes: tally.extremes,
        polygons,
        edges: tally.edges,
    }
}
