//! Positions along a line.
ghost use Rattle.std.specs.Prelude.{◌≡◌};
ghost use Rattle.qh_model.specs.headline.Vector.{minus, dot};

use crate::components::Difference;
use qh_model::Point;

/// Returns how far `p` lies along the vector from `a` to `b`, times the length of that vector: below 0 if `p` lies
/// behind `a`.
///
/// It is the scalar product `(b - a) . (p - a)`.
pub fn along(a: Point, b: Point, p: Point) -> i128
    ensures { result ≡ dot (minus b a) (minus p a) }
{
    let way = Difference::between(a, b).components();
    way.dot(Difference::between(a, p).components())
}
