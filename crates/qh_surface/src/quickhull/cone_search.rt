//! A search through a large cone for a facet that a point is above.
//!
//! The rays of the cone are in a ring, and the half-planes from the first ray through the others turn about it in
//! order. So a binary search finds the wedge whose range contains a point. Only three facets of the cone need a test:
//! the first, the last and that of the wedge. If none of the three sees the point, it lies between three rays, and no
//! facet of the cone sees it.
//!
//! The search itself is not proved. Each result has a certificate: the facet that sees the point, or the three rays.
//! Without a certificate the result is `Unknown`, and all facets are tested.
ghost use Rattle.std.specs.Prelude.{◌≡◌, ◌<◌, IsTrue, length, pos, ◌≤ℤ◌, ◌<ℤ◌};
ghost use Rattle.qh_pred.specs.contract.Planes.{height};
ghost use Rattle.qh_surface.specs.steps.Cones.{wedge_at, AreTriangles, IsAnswer};

use crate::quickhull::cone_ring::{ConeRing, Wedge};
use qh_mesh::FacetNo;
use qh_model::Point;
use qh_pred::Plane;

/// The result of a search through a ring for a point.
#[derive(Clone, Copy, Drop)]
pub enum Visibility {
    /// This facet sees the point.
    Seen(FacetNo),
    /// The point lies between three rays, so no facet of the cone sees it.
    Unseen,
    /// The search found neither.
    Unknown,
}

/// Returns true if a point that the wedge does not see lies between the wedge's rays and the first ray. The half-plane
/// is that of the apex, the corner of the first ray and the point.
fn is_between(half: &Plane, first: Point, wedge: &Wedge) -> bool
    ensures spans { IsTrue result → height wedge.now.plane first <ℤ pos 0 }
    ensures from { IsTrue result → pos 0 ≤ℤ height half.now wedge.now.from }
    ensures to { IsTrue result → height half.now wedge.now.to ≤ℤ pos 0 }
{
    wedge.plane.height(first) < 0 && half.height(wedge.from) >= 0 && half.height(wedge.to) <= 0
}

impl ConeRing {
    /// Returns the wedge at an index.
    fn wedge(&self, place: usize) -> &Wedge
        requires { place < length self.now.wedges.items }
        ensures { result.now ≡ wedge_at self.now.wedges.items place }
    {
        &self.wedges[place]
    }

    /// Returns the index of the last wedge, other than the last of the ring, that begins at the half-plane or before
    /// it. The half-plane goes from the first ray through a point that neither the first nor the last wedge sees.
    fn place_of(&self, half: &Plane) -> usize
        requires { 2 < length self.now.wedges.items }
    {
        let mut low = 1;
        let mut high = self.wedges.len() - 1;
        let is_after_first = half.sees(self.wedges[low].from);
        if !is_after_first && half.height(self.wedges[high].from) == 0 {
            return self.opposite;
        }
        let least = i128::from(is_after_first);
        while high - low > 1 {
            let middle = low + (high - low) / 2;
            if half.height(self.wedges[middle].from) >= least {
                low = middle;
            } else {
                high = middle;
            }
        }
        low
    }

    /// Returns the result of a search for a point.
    pub fn visibility(&self, point: Point) -> Visibility
        requires { AreTriangles self.now.apex self.now.wedges.items }
        ensures { IsAnswer self.now.apex self.now.wedges.items point result }
    {
        let count = self.wedges.len();
        if count < 3 {
            return Visibility::Unknown;
        }
        let first = self.wedge(0);
        if first.plane.sees(point) {
            return Visibility::Seen(first.facet);
        }
        let last = self.wedge(count - 1);
        if last.plane.sees(point) {
            return Visibility::Seen(last.facet);
        }
        let half = Plane::through(self.apex, first.from, point);
        let place = self.place_of(&half);
        if place >= count {
            return Visibility::Unknown;
        }
        let wedge = self.wedge(place);
        if wedge.plane.sees(point) {
            Visibility::Seen(wedge.facet)
        } else if is_between(&half, first.from, wedge) {
            Visibility::Unseen
        } else {
            Visibility::Unknown
        }
    }
}
