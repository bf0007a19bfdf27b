//! The finished mesh of a part, with marks of the facets that stay.
ghost use Rattle.std.specs.Prelude.{◌≡◌, ◌<◌, length};
ghost use Rattle.qh_model.specs.{contract.StoredSurface.facet_at, headline.Predicates.place};
ghost use Rattle.qh_mesh.specs.contract.Replacement.{IsLive};
ghost use Rattle.qh_surface.specs.contract.NamedMeshes.{named, IsNamedMesh};

use crate::seam::triangles::PointTriangle;
use qh_mesh::FacetNo;
use qh_model::Point;
use qh_pred::point_at;
use qh_surface::NamedMesh;

/// The finished mesh of a part, and for each of its places true if the facet there is marked to stay.
#[derive(Clone, Copy, Drop)]
pub(crate) struct Marked<'a> {
    pub pts: &'a [Point],
    pub surface: &'a NamedMesh,
    pub stay: &'a [bool],
    ghost named: { IsNamedMesh pts.now surface.now },
    ghost marks: { length surface.now.mesh ≡ length stay.now },
}

impl Marked<'_> {
    /// Returns the corners of a live facet.
    pub fn triangle(self, f: FacetNo) -> PointTriangle
        requires { IsLive self.surface.now.mesh f }
        ensures a { result.a ≡ place self.entry.pts.now (facet_at (named self.entry.surface.now) f).i }
        ensures b { result.b ≡ place self.entry.pts.now (facet_at (named self.entry.surface.now) f).j }
        ensures c { result.c ≡ place self.entry.pts.now (facet_at (named self.entry.surface.now) f).k }
    {
        let [i, j, k] = self.surface.corners(f);
        PointTriangle {
            a: point_at(self.pts, i),
            b: point_at(self.pts, j),
            c: point_at(self.pts, k),
        }
    }
}
