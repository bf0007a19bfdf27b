//! The mesh of a finished run, with the ids of its corners.
//!
//! Its corners are positions in a list of points, in which near points mostly lie near each other. So the points of its
//! facets are read there, and an id is looked up only where it is returned.
ghost use Rattle.std.specs.Prelude.{◌≡◌, ◌∷◌, [], length};
ghost use Rattle.qh_model.specs.contract.StoredSurface.{facet_at};
ghost use Rattle.qh_mesh.specs.contract.Replacement.{IsLive};
ghost use Rattle.qh_surface.specs.contract.{Corners.AreCornersBelow, NamedMeshes.named};

use qh_mesh::{FacetNo, Mesh};
use qh_model::{Id, Point};

/// A mesh over positions, the points at the positions, and the ids of these points.
#[derive(Drop)]
pub struct NamedMesh {
    pub mesh: Mesh,
    pub points: Vec<Point>,
    pub ids: Vec<Id>,
}

impl NamedMesh {
    /// Returns the ids of the corners of a live facet.
    pub fn corners(&self, f: FacetNo) -> [Id; 3]
        requires live { IsLive self.now.mesh f }
        requires positions { AreCornersBelow (length self.now.ids.items) self.now.mesh }
        ensures { let t = facet_at (named self.now) f in result ≡ t.i ∷ t.j ∷ t.k ∷ [] }
    {
        let [a, b, c] = self.mesh.facet(f);
        [
            self.ids[a.index()],
            self.ids[b.index()],
            self.ids[c.index()],
        ]
    }

    /// Returns the mesh with the ids as its corners.
    pub fn renamed(self) -> Mesh
        ensures { result ≡ named self }
    {
        let mut mesh = self.mesh;
        mesh.name_corners(&self.ids);
        mesh
    }
}
