//! Axis-parallel boxes of space.
ghost use Rattle.std.specs.Prelude.{◌≡◌, ◌⊎◌, ◌↔◌, IsTrue};
ghost use Rattle.qh_model.specs.{contract.Places.IsPlace, headline.Vector.Vector};
ghost use Rattle.qh_pred.specs.contract.Ranges.{IsBetween, IsFarEnd};
ghost use Rattle.qh_block.specs.contract.{Cells.IsWithin, Cells.IsBelow, CornerBoxes.IsCorner, CornerBoxes.IsEnd};

use crate::regions::coarse_planes::CoarsePlane;
use qh_model::Point;
use qh_pred::{greatest_of, least_of};

/// The points between two opposite corners, which are included. There is no point if a coordinate of the first corner
/// is greater than that of the second.
#[derive(Clone, Copy, Drop)]
pub struct Bounds {
    pub low: Point,
    pub high: Point,
}

/// Returns true if a number is in a range.
fn is_between(low: i32, number: i32, high: i32) -> bool
    ensures { IsTrue result ↔ IsBetween low number high }
{
    (low <= number) & (number <= high)
}

/// Returns true if a number is the least or the greatest of a range.
fn is_end(low: i32, number: i32, high: i32) -> bool
    ensures { IsTrue result ↔ IsEnd low number high }
{
    number == low || number == high
}

/// Returns the end of a range at which a product with this factor is greatest.
fn far_end(factor: i32, low: i32, high: i32) -> i32
    ensures end { (result ≡ low) ⊎ (result ≡ high) }
    ensures far { IsFarEnd factor low high result }
{
    if factor > 0 { high } else { low }
}

/// Returns the end of a range at which a product with this factor is least.
fn near_end(factor: i32, low: i32, high: i32) -> i32
    ensures { (result ≡ low) ⊎ (result ≡ high) }
{
    if factor > 0 { low } else { high }
}

impl Bounds {
    /// Returns bounds without points.
    pub fn none() -> Bounds
        ensures { (p : Vector) → ¬ (IsWithin result p) }
    {
        Bounds {
            low: Point::new(1, 1, 1),
            high: Point::new(0, 0, 0),
        }
    }

    /// Returns true if the bounds contain a point.
    pub fn contains(&self, p: Point) -> bool
        ensures within { IsTrue result ↔ IsWithin self.now p }
        ensures place { IsPlace p }
    {
        is_between(self.low.x(), p.x(), self.high.x())
            & is_between(self.low.y(), p.y(), self.high.y())
            & is_between(self.low.z(), p.z(), self.high.z())
    }

    /// Returns true if a point is one of the corners.
    pub fn has_corner(&self, p: Point) -> bool
        ensures { IsTrue result ↔ IsCorner self.now p }
    {
        is_end(self.low.x(), p.x(), self.high.x())
            & is_end(self.low.y(), p.y(), self.high.y())
            & is_end(self.low.z(), p.z(), self.high.z())
    }

    /// Returns the corner that lies furthest along a plane's normal.
    pub fn far_corner(&self, plane: &CoarsePlane) -> Point
        ensures x { IsFarEnd plane.now.normal.x self.now.low.x self.now.high.x result.x }
        ensures y { IsFarEnd plane.now.normal.y self.now.low.y self.now.high.y result.y }
        ensures z { IsFarEnd plane.now.normal.z self.now.low.z self.now.high.z result.z }
    {
        let tip = plane.tip();
        Point::new(
            far_end(tip.x(), self.low.x(), self.high.x()),
            far_end(tip.y(), self.low.y(), self.high.y()),
            far_end(tip.z(), self.low.z(), self.high.z()),
        )
    }

    /// Returns the corner that lies furthest in the direction opposite to a plane's normal.
    pub fn near_corner(&self, plane: &CoarsePlane) -> Point {
        let tip = plane.tip();
        Point::new(
            near_end(tip.x(), self.low.x(), self.high.x()),
            near_end(tip.y(), self.low.y(), self.high.y()),
            near_end(tip.z(), self.low.z(), self.high.z()),
        )
    }

    /// Returns true if a plane is strictly above all of the points: the corner that lies furthest along its normal is
    /// below it.
    pub fn is_below(&self, plane: &CoarsePlane) -> bool
        ensures { IsTrue result → IsBelow self.now plane.now }
    {
        plane.is_above(self.far_corner(plane))
    }

    /// Returns the points that both bounds contain.
    pub fn common(&self, other: &Bounds) -> Bounds
        ensures { (p : Vector) → IsWithin result p → IsWithin self.now p }
    {
        Bounds {
            low: greatest_of(self.low, other.low),
            high: least_of(self.high, other.high),
        }
    }
}
