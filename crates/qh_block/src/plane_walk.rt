//! A walk over the facets of a mesh that lie in the plane of one of them.
ghost use Rattle.std.specs.Prelude.{◌≡◌, ◌↔◌, IsTrue, length};
ghost use Rattle.qh_model.specs.{contract.Surface.rest, contract.StoredSurface.surface_of, headline.Vector.Vector};
ghost use Rattle.qh_model.specs.headline.Predicates.{place};
ghost use Rattle.qh_model.specs.laws.FacetPlanes.{IsLevelWith, IsLevelFacet};
ghost use Rattle.qh_mesh.specs.contract.{Edges.facet_of, Edges.side_of_edge, Replacement.IsLive, SoundMesh.facet_vol};
ghost use Rattle.qh_pred.specs.contract.Planes.{height};
ghost use Rattle.qh_surface.specs.contract.Corners.{AreCornersBelow};

use qh_mesh::{EdgeNo, FacetNo, Mesh};
use qh_model::Point;
use qh_pred::{Plane, point_at};
use qh_surface::walk::FacetPredicate;

/// The predicate that a facet lies in the plane of a live facet from which the walk starts.
#[derive(Clone, Copy, Drop)]
pub struct IsLevel<'a> {
    pub pts: &'a [Point],
    pub start: FacetNo,
    pub plane: Plane,
}

impl IsLevel<'_> {
    /// Returns true if the corner of a live facet opposite to one of its edges lies in the plane.
    fn has_opposite(&self, mesh: &Mesh, edge: EdgeNo) -> bool
        requires corners { AreCornersBelow (length self.now.pts.now) mesh.now }
        requires plane { (p : Vector) → height self.now.plane p ≡ facet_vol (place self.now.pts.now) mesh.now self.now.start p }
        requires live { IsLive mesh.now (facet_of edge) }
        ensures { IsTrue result ↔ IsLevelWith (place self.now.pts.now) (surface_of mesh.now) self.now.start
            (rest (surface_of mesh.now) (facet_of edge) (side_of_edge edge)) }
    {
        let corner = point_at(self.pts, mesh.opposite(edge));
        self.plane.height(corner) == 0
    }
}

impl FacetPredicate for IsLevel<'_> {
    ghost Fits = { λ t fs. AreCornersBelow (length t.pts.now) fs × IsLive fs t.start
        × ((p : Vector) → height t.plane p ≡ facet_vol (place t.pts.now) fs t.start p) };

    ghost Passes = { λ t fs f. IsLevelFacet (place t.pts.now) (surface_of fs) t.start f };

    // The other two corners belong to a facet in the plane.
    fn passes(&self, mesh: &Mesh, edge: EdgeNo) -> bool {
        self.has_opposite(mesh, edge)
    }
}
