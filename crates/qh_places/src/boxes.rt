//! Boxes with sides along the axes, around points.
ghost use Rattle.std.specs.Prelude.{◌≡◌, ◌⊎◌, ◌<◌, ◌<ℤ◌, pos, length, IsTrue};
ghost use Rattle.qh_model.specs.headline.Vector.{Vector};
ghost use Rattle.qh_pred.specs.contract.{Planes.height, Ranges.IsFarEnd};
ghost use Rattle.qh_places.specs.steps.Boxes.{IsWithin, IsBoxOf};

use qh_model::Point;
use qh_pred::{Normal, Plane, greatest_of, least_of};

/// The points between two opposite corners, these included.
#[derive(Clone, Copy, Drop)]
pub struct PointBox {
    pub low: Point,
    pub high: Point,
}

/// Returns the end of a range at which a product with this factor is greatest.
fn far_end(factor: i128, low: i32, high: i32) -> i32
    ensures end { (result ≡ low) ⊎ (result ≡ high) }
    ensures far { IsFarEnd factor low high result }
{
    if factor > 0 { high } else { low }
}

impl PointBox {
    /// Returns the box extended by a point.
    fn with(self, p: Point) -> PointBox
        ensures own { IsWithin result p }
        ensures others { (q : Vector) → IsWithin self q → IsWithin result q }
    {
        PointBox {
            low: least_of(self.low, p),
            high: greatest_of(self.high, p),
        }
    }

    /// Returns the smallest box around points.
    pub(crate) fn around(points: &[Point]) -> PointBox
        requires { 0 < length points.now }
        ensures { IsBoxOf points.now 0 (length points.now) result }
    {
        let first = points[0];
        let mut bounds = PointBox {
            low: first,
            high: first,
        };
        for point in points {
            bounds = bounds.with(*point);
        }
        bounds
    }

    /// Returns the corner that lies furthest along a normal.
    fn far_corner(&self, normal: &Normal) -> Point
        ensures x { IsFarEnd normal.now.x self.now.low.x self.now.high.x result.x }
        ensures y { IsFarEnd normal.now.y self.now.low.y self.now.high.y result.y }
        ensures z { IsFarEnd normal.now.z self.now.low.z self.now.high.z result.z }
    {
        Point::new(
            far_end(normal.x(), self.low.x(), self.high.x()),
            far_end(normal.y(), self.low.y(), self.high.y()),
            far_end(normal.z(), self.low.z(), self.high.z()),
        )
    }

    /// Returns true if the box lies strictly above the plane, which holds if its corner least far along the normal does.
    pub fn is_above(&self, plane: &Plane) -> bool {
        let turned = PointBox {
            low: self.high,
            high: self.low,
        };
        plane.sees(turned.far_corner(&plane.normal()))
    }

    /// Returns true if the box lies strictly below the plane, which holds if its corner furthest along the normal does.
    pub(crate) fn is_below(&self, plane: &Plane) -> bool
        ensures { IsTrue result → (p : Vector) → IsWithin self.now p → height plane.now p <ℤ pos 0 }
    {
        plane.height(self.far_corner(&plane.normal())) < 0
    }
}
