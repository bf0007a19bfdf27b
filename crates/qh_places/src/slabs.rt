//! Blocks of points: a box, and how far its points reach along a direction that approximates the surface normal there.
ghost use Rattle.std.specs.Prelude.{◌≡◌, ◌<◌, ◌≤◌, ◌^◌, ◌+ℤ◌, ◌*ℤ◌, ◌≤ℤ◌, ℕ, length, slice_index_or, unsigned_abs};
ghost use Rattle.qh_model.specs.headline.Vector.{origin, dot};
ghost use Rattle.qh_places.specs.steps.Slabs.{vector_of, IsBlockOf};

use crate::boxes::PointBox;
use qh_model::Point;

/// A direction with small components.
#[derive(Clone, Copy, Drop)]
pub(crate) struct Direction {
    pub x: i16,
    pub y: i16,
    pub z: i16,
}

/// Points of a box that reach no further than `reach` along a direction. `inverse` is `UNIT` divided by the scalar
/// product of the direction with itself, or 0 if that is 0; it is used for guesses.
#[derive(Clone, Copy, Drop)]
pub(crate) struct Block {
    pub bounds: PointBox,
    pub along: Direction,
    pub inverse: i64,
    pub reach: i64,
}

/// The numerator of inverses: 2^58.
const UNIT: i64 = 288230376151711744;

/// Returns the product of a component and a coordinate.
fn component_product(component: i16, coordinate: i32) -> i64
    ensures value { result ≡ component *ℤ coordinate }
    ensures limit { unsigned_abs result ≤ 2 ^ 46 }
{
    i64::from(component) * i64::from(coordinate)
}

/// Returns the sum of three products.
fn sum(a: i64, b: i64, c: i64) -> i64
    requires a { unsigned_abs a ≤ 2 ^ 46 }
    requires b { unsigned_abs b ≤ 2 ^ 46 }
    requires c { unsigned_abs c ≤ 2 ^ 46 }
    ensures value { result ≡ a +ℤ b +ℤ c }
    ensures limit { unsigned_abs result ≤ 2 ^ 48 }
{
    a + b + c
}

impl Direction {
    /// Returns how far a point reaches along the direction: their scalar product.
    pub fn reach(self, p: Point) -> i64
        ensures value { result ≡ dot (vector_of self) p }
        ensures limit { unsigned_abs result ≤ 2 ^ 48 }
    {
        sum(
            component_product(self.x, p.x()),
            component_product(self.y, p.y()),
            component_product(self.z, p.z()),
        )
    }

    /// Returns `UNIT` divided by the scalar product of the direction with itself, or 0 if that is 0.
    fn inverse(self) -> i64 {
        let (x, y, z) = (i64::from(self.x), i64::from(self.y), i64::from(self.z));
        let square = x
            .wrapping_mul(x)
            .wrapping_add(y.wrapping_mul(y))
            .wrapping_add(z.wrapping_mul(z));
        UNIT.checked_div(square).unwrap_or(0)
    }

    /// Returns the greatest reach of the points along the direction.
    fn furthest(self, points: &[Point]) -> i64
        requires { 0 < length points.now }
        ensures { (k : ℕ) → k < length points.now → dot (vector_of self) (slice_index_or points.now k origin) ≤ℤ result }
    {
        let mut furthest = self.reach(points[0]);
        for point in points {
            furthest = furthest.max(self.reach(*point));
        }
        furthest
    }
}

impl Block {
    /// Returns the smallest block of points for a direction.
    pub fn around(points: &[Point], along: Direction) -> Block
        requires { 0 < length points.now }
        ensures { IsBlockOf points.now 0 (length points.now) result }
    {
        Block {
            bounds: PointBox::around(points),
            along,
            inverse: along.inverse(),
            reach: along.furthest(points),
        }
    }
}
