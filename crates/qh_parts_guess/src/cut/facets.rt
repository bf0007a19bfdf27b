//! The facets of a part, with the points of their corners. Calls for a free place return nothing.
ghost use Rattle.std.specs.Prelude.{IsTrue};
ghost use Rattle.qh_mesh.specs.contract.Replacement.{IsLive};

use qh_mesh::FacetNo;
use qh_model::{Id, Point};
use qh_places::Tangent;
use qh_pred::Plane;
use qh_surface::NamedMesh;

/// The facets of the hull of a part.
#[derive(Clone, Copy, Drop)]
pub(crate) struct Facets<'a> {
    surface: &'a NamedMesh,
}

impl<'a> Facets<'a> {
    /// Returns the facets of a mesh.
    pub fn of(surface: &'a NamedMesh) -> Facets<'a> {
        Facets { surface }
    }

    /// Returns the number of places, including free ones.
    pub fn places(self) -> usize {
        self.surface.mesh.places()
    }

    /// Returns true if there is a facet at a place.
    pub fn is_live(self, f: FacetNo) -> bool
        ensures { IsTrue result → IsLive self.entry.surface.now.mesh f }
    {
        f.index() < self.surface.mesh.places() && self.surface.mesh.is_live(f)
    }

    /// Returns the first facet at or after a place.
    pub fn first_from(self, place: usize) -> Option<FacetNo> {
        let mut places = (place..self.places()).map(|place| FacetNo::new(place));
        places.find(|f| self.is_live(*f))
    }

    /// Returns true if there is a facet at a place, and none of its corners is among the first `count` points of the mesh.
    pub fn is_past(self, f: FacetNo, count: usize) -> bool {
        self.is_live(f)
            && self
                .surface
                .mesh
                .facet(f)
                .iter()
                .all(|corner| corner.index() >= count)
    }

    /// Returns what a list has at the positions of a facet's corners among the points of the mesh.
    pub fn at_corners<T: Copy>(self, f: FacetNo, items: &[T]) -> Option<[T; 3]> {
        if !self.is_live(f) {
            return None;
        }
        let [a, b, c] = self.surface.mesh.facet(f);
        Some([
            *items.get(a.index())?,
            *items.get(b.index())?,
            *items.get(c.index())?,
        ])
    }

    /// Returns the points of a facet's corners.
    pub fn corners(self, f: FacetNo) -> Option<[Point; 3]> {
        self.at_corners(f, &self.surface.points)
    }

    /// Returns the ids of a facet's corners.
    pub fn ids(self, f: FacetNo) -> Option<[Id; 3]> {
        self.at_corners(f, &self.surface.ids)
    }

    /// Returns the plane of a facet.
    pub fn plane(self, f: FacetNo) -> Option<Plane> {
        let [a, b, c] = self.corners(f)?;
        Some(Plane::through(a, b, c))
    }

    /// Returns the plane of a facet, for tests of blocks.
    pub fn tangent(self, f: FacetNo) -> Option<Tangent> {
        Some(Tangent::of(self.corners(f)?))
    }

    /// Returns the number of the facet across a side of another: 0, 1 or 2.
    pub fn next(self, f: FacetNo, side: usize) -> Option<FacetNo> {
        if side >= 3 || !self.is_live(f) {
            return None;
        }
        let mesh = &self.surface.mesh;
        Some(mesh.facet_of(mesh.across(f, side)))
    }

    /// Returns the corner of the facet across a side of another, 0, 1 or 2, that is not on the side.
    pub fn opposite(self, f: FacetNo, side: usize) -> Option<Point> {
        if side >= 3 || !self.is_live(f) {
            return None;
        }
        let mesh = &self.surface.mesh;
        let corner = mesh.opposite(mesh.across(f, side));
        self.surface.points.get(corner.index()).copied()
    }
}
