//! Triangles of points: their planes, and the space between a triangle and the middle of four points.
ghost use Rattle.std.specs.Prelude.{◌≡◌, pos, ◌+ℤ◌, ◌≤ℤ◌, IfSome, IsTrue, false};
ghost use Rattle.qh_model.specs.{contract.IdSets.AreIndices, headline.Vector.Vector, headline.Predicates.vol};
ghost use Rattle.qh_pred.specs.contract.Planes.{height};
ghost use Rattle.qh_parts.specs.steps.Triangles.{four_vols, IsFourOf, IsInCone};

use qh_model::{Id, Point};
use qh_pred::{Plane, point_at, vol};

/// Three points, counterclockwise seen from the side above.
#[derive(Clone, Copy, Drop)]
pub(crate) struct PointTriangle {
    pub a: Point,
    pub b: Point,
    pub c: Point,
}

/// Four points. Their middle lies inside every part that has them.
#[derive(Clone, Copy, Drop)]
pub(crate) struct Four {
    pub s: Point,
    pub t: Point,
    pub u: Point,
    pub v: Point,
}

/// Returns the points of the first four ids of a list, if they do not lie in one plane.
pub(crate) fn four_of(pts: &[Point], ids: &[Id]) -> Option<Four>
    requires { AreIndices pts.now ids.now }
    ensures { IfSome result (IsFourOf pts.now ids.now) }
{
    let [i, j, k, l, ..] = ids else {
        return None;
    };
    let (s, t) = (point_at(pts, *i), point_at(pts, *j));
    let (u, v) = (point_at(pts, *k), point_at(pts, *l));
    if vol(s, t, u, v) < 0 {
        return Some(Four { s, t, u, v });
    }
    if vol(t, s, u, v) < 0 {
        return Some(Four { s: t, t: s, u, v });
    }
    None
}

/// Returns true if the sum of four numbers is known to be at most 0.
fn is_low(a: i128, b: i128, c: i128, d: i128) -> bool
    ensures { IsTrue result → (a +ℤ b +ℤ c +ℤ d) ≤ℤ pos 0 }
{
    let Some(two) = a.checked_add(b) else {
        return false;
    };
    let Some(three) = two.checked_add(c) else {
        return false;
    };
    match three.checked_add(d) {
        Some(sum) => sum <= 0,
        None => false,
    }
}

/// Returns true if d is above the plane of a, b and c.
fn is_above(a: Point, b: Point, c: Point, d: Point) -> bool
    ensures { result ≡ false → vol a b c d ≤ℤ pos 0 }
{
    vol(a, b, c, d) > 0
}

impl Four {
    /// Returns true if the middle is known not to be above the plane of a, b and p.
    fn is_behind(&self, a: Point, b: Point, p: Point) -> bool
        ensures { IsTrue result → four_vols a b p self.now ≤ℤ pos 0 }
    {
        let plane = Plane::through(a, b, p);
        let s = plane.height(self.s);
        let t = plane.height(self.t);
        let u = plane.height(self.u);
        let v = plane.height(self.v);
        is_low(s, t, u, v)
    }
}

impl PointTriangle {
    /// Returns its plane.
    pub fn plane(&self) -> Plane
        ensures { (p : Vector) → height result p ≡ vol self.now.a self.now.b self.now.c p }
    {
        Plane::through(self.a, self.b, self.c)
    }

    /// Returns true if a point lies between the triangle and the middle of four points: it is not above the triangle,
    /// and beyond no plane through the middle and a side.
    pub fn has_between(&self, four: &Four, p: Point) -> bool
        ensures { IsTrue result → IsInCone self.now.a self.now.b self.now.c four.now p }
    {
        let (a, b, c) = (self.a, self.b, self.c);
        if is_above(a, b, c, p) {
            return false;
        }
        let first = four.is_behind(a, b, p);
        let second = four.is_behind(b, c, p);
        let third = four.is_behind(c, a, p);
        first && second && third
    }
}
