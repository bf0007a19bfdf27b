//! A place inside a surface, and a ray from there.
ghost use Rattle.std.specs.Prelude.{pos, ◌<ℤ◌, ◌↔◌, All, IsTrue, length};
ghost use Rattle.qh_model.specs.headline.{Predicates.place, Predicates.vol, Limits.IsCoordinate};
ghost use Rattle.qh_check.specs.steps.{Rays.IsMetOnce, Rays.IsPassage, Triangles.IsBelow};

use crate::convex::pairs::is_below;
use crate::convex::triangles::Triangle;
use qh_model::{COORDINATE_LIMIT, Id, Point};
use qh_pred::{Plane, point_at};

/// A ray from a place through another.
#[derive(Clone, Copy)]
pub struct Ray {
    pub from: Point,
    pub through: Point,
}

/// How a ray passes a triangle. The ray begins strictly below the triangle.
#[derive(Clone, Copy, Debug, PartialEq, Eq)]
enum Passage {
    /// The ray meets the inside of the triangle.
    Met,
    /// The ray misses the triangle and its edges.
    Missed,
    /// The ray meets an edge, or does not begin strictly below the triangle.
    Unclear,
}

/// Returns the coordinate nearest to a number.
fn nearest_coordinate(number: i64) -> i32
    ensures { IsCoordinate result }
{
    let limit = i64::from(COORDINATE_LIMIT);
    number.clamp(-limit, limit) as i32
}

/// Returns the middle of the points of some ids, rounded. An id without a point counts as the origin.
fn middle(pts: &[Point], ids: &[Id]) -> Point {
    let (mut x, mut y, mut z): (i64, i64, i64) = (0, 0, 0);
    for id in ids {
        if let Some(p) = pts.get(id.index()) {
            x = x.saturating_add(i64::from(p.x()));
            y = y.saturating_add(i64::from(p.y()));
            z = z.saturating_add(i64::from(p.z()));
        }
    }
    let count = (ids.len() as i64).max(1);
    Point::new(
        nearest_coordinate(x / count),
        nearest_coordinate(y / count),
        nearest_coordinate(z / count),
    )
}

impl Ray {
    /// Returns a ray from the middle of some ids through the middle of a triangle.
    ///
    /// The ray is not proved: it is a guess, and a wrong guess makes no surface count as sharp.
    pub fn guess(pts: &[Point], ids: &[Id], t: Triangle) -> Ray {
        Ray {
            from: middle(pts, ids),
            through: middle(pts, &[t.i(), t.j(), t.k()]),
        }
    }

    /// Returns true if the ray turns left round the edge from `a` to `b`, seen from where it begins.
    fn is_left(&self, a: Point, b: Point) -> bool
        ensures { IsTrue result ↔ (pos 0 <ℤ vol self.now.from a b self.now.through) }
    {
        Plane::through(self.from, a, b).sees(self.through)
    }

    /// Returns true if the ray turns right round the edge from `a` to `b`, seen from where it begins.
    fn is_right(&self, a: Point, b: Point) -> bool
        ensures { IsTrue result ↔ (vol self.now.from a b self.now.through <ℤ pos 0) }
    {
        is_below(self.from, a, b, self.through)
    }

    /// Returns how the ray passes a triangle.
    fn passage(&self, pts: &[Point], t: Triangle) -> Passage
        requires { IsBelow (length pts.now) t }
        ensures { IsPassage (place pts.now) self.now.from self.now.through t result }
    {
        let a = point_at(pts, t.i());
        let b = point_at(pts, t.j());
        let c = point_at(pts, t.k());
        if !is_below(a, b, c, self.from) {
            return Passage::Unclear;
        }
        if self.is_right(a, b) || self.is_right(b, c) || self.is_right(c, a) {
            return Passage::Missed;
        }
        if self.is_left(a, b) && self.is_left(b, c) && self.is_left(c, a) {
            return Passage::Met;
        }
        Passage::Unclear
    }

    /// Returns true if the ray begins strictly below each of some triangles, meets the inside of one, and misses
    /// the others.
    pub fn meets_once(&self, pts: &[Point], triangles: &[Triangle]) -> bool
        requires { All (IsBelow (length pts.now)) triangles.now }
        ensures { IsTrue result → IsMetOnce (place pts.now) triangles.now self.now.from self.now.through }
    {
        let mut met: usize = 0;
        for triangle in triangles {
            match self.passage(pts, *triangle) {
                Passage::Met => met += 1,
                Passage::Missed => {}
                Passage::Unclear => return false,
            }
        }
        met == 1
    }
}
