//! The predicates of points.
ghost use Rattle.std.specs.Prelude.{◌≡◌, ◌<◌, ◌↔◌, IsTrue, length};
ghost use Rattle.qh_model.specs.headline.Predicates.{vol, cross, left, place, AreInLine};
ghost use Rattle.qh_pred.specs.contract.Turns.{sign, first_product, IsAcross};

use crate::components::{Components, Difference};
use crate::normal::Normal;
use qh_model::{Id, Point};
use std::cmp::Ordering;

/// Returns the cross product of the vectors from a to b and from a to c.
#[tactic(auto, unfolding(qh_model::specs::headline::Predicates::cross))]
pub(crate) fn product(a: Point, b: Point, c: Point) -> Components
    ensures { result ≡ cross a b c }
{
    Difference::between(a, b).cross(Difference::between(a, c))
}

/// Returns the normal of the triangle a, b, c: (b - a) x (c - a). It points to the side from which the triangle is
/// counterclockwise, and is zero if the three points lie in one line.
pub fn cross(a: Point, b: Point, c: Point) -> Normal
    ensures { result ≡ cross a b c }
{
    Normal::of_product(product(a, b, c))
}

/// Returns true if the three points lie in one line.
pub fn in_line(a: Point, b: Point, c: Point) -> bool
    ensures { IsTrue result ↔ AreInLine a b c }
{
    product(a, b, c).is_zero()
}

/// Returns six times the volume of the tetrahedron a, b, c, d: above 0 if d is on the side to which the normal of a, b,
/// c points, 0 if the four lie in one plane.
pub fn vol(a: Point, b: Point, c: Point, d: Point) -> i128
    ensures { result ≡ vol a b c d }
{
    product(a, b, c).dot(Difference::between(a, d).components())
}

/// Returns the turn from u over v to w in a plane with the normal n: `Greater` for a left turn seen from the side to
/// which n points, `Equal` if the three points lie in one line.
///
/// The caller ensures `IsAcross`: n is not zero, and the three points lie in a plane with that normal. Their own normal
/// is then a multiple of n. Each component of n that is not 0 determines the sign of that multiple, so the product of
/// the two normals is not needed.
pub fn left(n: &Normal, u: Point, v: Point, w: Point) -> Ordering
    ensures turn { IsAcross n.now u v w → result ≡ sign (left n.now u v w) }
    ensures component { result ≡ sign (first_product n.now (cross u v w)) }
{
    n.components().first_sign(product(u, v, w))
}

/// Returns the point of an id. The id is the index of one of the points.
#[tactic(auto, unfolding(qh_model::specs::headline::Predicates::place))]
pub fn point_at(pts: &[Point], id: Id) -> Point
    requires { id < length pts.now }
    ensures { result ≡ place pts.now id }
{
    pts[id.index()]
}
