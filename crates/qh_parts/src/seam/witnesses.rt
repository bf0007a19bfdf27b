//! Witnesses: a facet for each point of the other parts, which shows that no facet that stays needs a test with it.
ghost use Rattle.std.specs.Prelude.{◌≡◌, ◌<◌, ◌⊎◌, IsTrue, pos, ◌<ℤ◌, true, false};
ghost use Rattle.qh_model.specs.{contract.StoredSurface.surface_of, headline.Vector.Vector};
ghost use Rattle.qh_model.specs.headline.{Predicates.place, Predicates.vol, Sets.In};
ghost use Rattle.qh_surface.specs.contract.{NamedMeshes.named, Walks.mark_at};
ghost use Rattle.qh_pred.specs.contract.Planes.{height};
ghost use Rattle.qh_parts.specs.steps.{Triangles.IsInCone, Witnesses.IsAnswered};

use crate::seam::marked::Marked;
use crate::seam::triangles::{Four, PointTriangle};
use qh_mesh::FacetNo;
use qh_model::Point;
use qh_parts_join::Run;
use qh_pred::Plane;

/// A facet as a witness: its triangle and plane, true if it stays, and four points of the part.
#[derive(Clone, Copy, Drop)]
struct Witness<'a> {
    triangle: PointTriangle,
    plane: Plane,
    stays: bool,
    four: &'a Four,
    ghost same: { (p : Vector) → height plane p ≡ vol triangle.a triangle.b triangle.c p },
}

impl Witness<'_> {
    /// Returns true if the facet is a removed one and the point is above it, or if the point lies between the facet and
    /// the middle of the four points.
    fn settles(&self, p: Point) -> bool
        ensures { let t = self.now.triangle in IsTrue result
            → ((self.now.stays ≡ false) × (pos 0 <ℤ vol t.a t.b t.c p)) ⊎ IsInCone t.a t.b t.c self.now.four.now p }
    {
        if self.plane.sees(p) {
            return !self.stays;
        }
        self.triangle.has_between(self.four, p)
    }
}

/// Returns true if a facet is a witness for each of the points.
fn is_witness(part: Marked, four: &Four, f: FacetNo, points: &[Point]) -> bool
    ensures { IsTrue result → (p : Vector) → In p points.now → IsAnswered (place part.entry.pts.now)
        (surface_of (named part.entry.surface.now)) (mark_at part.entry.stay.now) four.now p }
{
    if f.index() >= part.surface.mesh.places() || !part.surface.mesh.is_live(f) {
        return false;
    }
    let triangle = part.triangle(f);
    let plane = triangle.plane();
    let witness = Witness {
        triangle,
        plane,
        stays: part.stay[f.index()],
        four,
    };
    for point in points {
        if !witness.settles(*point) {
            return false;
        }
    }
    true
}

/// Returns true if each of the points has a witness. The runs are in the order of the points.
pub(crate) fn are_answered(part: Marked, four: &Four, runs: &[Run], points: &[Point]) -> bool
    ensures { IsTrue result → (p : Vector) → In p points.now → IsAnswered (place part.entry.pts.now)
        (surface_of (named part.entry.surface.now)) (mark_at part.entry.stay.now) four.now p }
{
    let mut rest = points;
    for run in runs {
        let (own, others) = rest.split_at(run.count.min(rest.len()));
        if !is_witness(part, four, run.facet, own) {
            return false;
        }
        rest = others;
    }
    if rest.len() > 0 {
        return false;
    }
    true
}
