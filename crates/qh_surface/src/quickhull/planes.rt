//! The planes of a mesh, by the places of its facets.
ghost use Rattle.std.specs.Prelude.{All, ◌≡◌, ◌≤◌, ◌<◌, ◌⊎◌, ℕ, length, OnOk};
ghost use Rattle.qh_model.specs.headline.{Vector.Vector, Sets.In, Predicates.place};
ghost use Rattle.qh_pred.specs.contract.Planes.{height};
ghost use Rattle.qh_mesh.specs.contract.{Replacement.IsLive, SoundMesh.facet_vol};
ghost use Rattle.qh_surface.specs.{contract.Corners.AreCornersBelow, steps.Planes.plane_at, steps.Runs.IsPlaneOf};

use qh_mesh::{FacetNo, Mesh};
use qh_model::Point;
use qh_pred::{Plane, point_at};
use std::alloc::AllocError;

/// The number of spare places that are allocated with each request, so that few rounds allocate.
pub const SPARE: usize = 64;

/// Returns the plane of a live facet, whose corners are positions of the points. A point is above the plane if it
/// strictly sees the facet.
pub fn plane_of(pts: &[Point], mesh: &Mesh, facet: FacetNo) -> Plane
    requires live { IsLive mesh.now facet }
    requires corners { AreCornersBelow (length pts.now) mesh.now }
    ensures { (p : Vector) → height result p ≡ facet_vol (place pts.now) mesh.now facet p }
{
    let [a, b, c] = mesh.facet(facet);
    Plane::through(point_at(pts, a), point_at(pts, b), point_at(pts, c))
}

/// Returns the plane that is stored at a place without a facet.
fn no_plane() -> Plane {
    let origin = Point::new(0, 0, 0);
    Plane::through(origin, origin, origin)
}

/// Reserves memory for the planes of `places` places and a few more.
pub fn make_room(planes: &mut Vec<Plane>, places: usize) -> Result<(), AllocError>
    ensures room { OnOk result (places ≤ length planes.new.items) }
    ensures kept { (f : ℕ) → f < length planes.old.items
        → (f < length planes.new.items) × (plane_at planes.new.items f ≡ plane_at planes.old.items f) }
{
    if planes.len() < places {
        planes.resize(places.saturating_add(SPARE), no_plane())?;
    }
    Ok(())
}

/// Writes the planes of the new facets.
pub fn renew(pts: &[Point], mesh: &Mesh, made: &[FacetNo], planes: &mut Vec<Plane>)
    requires live { All (IsLive mesh.now) made.now }
    requires corners { AreCornersBelow (length pts.now) mesh.now }
    requires room { length mesh.now ≤ length planes.old.items }
    ensures len { length planes.new.items ≡ length planes.old.items }
    ensures planes { (f : ℕ) → IsLive mesh.now f → IsPlaneOf pts.now mesh.now planes.old.items f ⊎ In f made.now
        → IsPlaneOf pts.now mesh.now planes.new.items f }
{
    for facet in made {
        planes[facet.index()] = plane_of(pts, mesh, *facet);
    }
}
