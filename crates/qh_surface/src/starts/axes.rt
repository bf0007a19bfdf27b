//! Places along the axes of a set. Each axis has its own scale, so that the set extends about equally along all three,
//! however flat or long it is.
ghost use Rattle.qh_model.specs.contract.IdSets.{AreIndices};

use qh_model::{Id, Point};
use qh_pred::point_at;

/// An axis: its least coordinate, and the number of bits for distances above it.
#[derive(Clone, Copy, Drop)]
struct Axis {
    least: i32,
    bits: u32,
}

impl Axis {
    /// Returns the axis from one coordinate to another.
    fn between(least: i32, greatest: i32) -> Axis {
        Axis {
            least,
            bits: u32::BITS - greatest.abs_diff(least).leading_zeros(),
        }
    }

    /// Returns the place of a coordinate of the axis, below 2^bits.
    fn place(self, coordinate: i32, bits: u32) -> u32 {
        let above = coordinate.abs_diff(self.least);
        if self.bits < bits {
            above.wrapping_shl(bits.saturating_sub(self.bits))
        } else {
            above.wrapping_shr(self.bits.saturating_sub(bits))
        }
    }
}

/// The three axes of a set.
#[derive(Clone, Copy, Drop)]
pub struct Axes {
    x: Axis,
    y: Axis,
    z: Axis,
}

impl Axes {
    /// Returns the axes of a set with these ends (see [`ends_of`](crate::starts::ends_of)).
    pub fn of(pts: &[Point], ends: &[Id; 6]) -> Axes
        requires { AreIndices pts.now ends.now }
    {
        let [west, east, south, north, bottom, top] = *ends;
        Axes {
            x: Axis::between(point_at(pts, west).x(), point_at(pts, east).x()),
            y: Axis::between(point_at(pts, south).y(), point_at(pts, north).y()),
            z: Axis::between(point_at(pts, bottom).z(), point_at(pts, top).z()),
        }
    }

    /// Returns the places of a point along the axes. They are below 2^bits if the point lies between the ends. No
    /// answer depends on them.
    pub fn places(&self, point: Point, bits: u32) -> [u32; 3] {
        let (x, y, z) = (self.x, self.y, self.z);
        [
            x.place(point.x(), bits),
            y.place(point.y(), bits),
            z.place(point.z(), bits),
        ]
    }
}
