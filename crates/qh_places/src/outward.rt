//! Guesses of outward directions. A wrong guess only costs time.
use crate::slabs::Direction;
use qh_model::Point;
use qh_pred::cross;

/// The sum of the normals of triangles: a guess of the outward direction where they meet.
#[derive(Clone, Copy, Drop)]
pub struct Outward {
    x: i64,
    y: i64,
    z: i64,
}

impl Outward {
    /// The outward direction where there is no triangle: the zero vector.
    pub const NONE: Outward = Outward { x: 0, y: 0, z: 0 };

    /// Returns the sum with another direction.
    pub fn plus(self, other: Outward) -> Outward {
        Outward {
            x: self.x.wrapping_add(other.x),
            y: self.y.wrapping_add(other.y),
            z: self.z.wrapping_add(other.z),
        }
    }

    /// Returns the sum of directions.
    pub fn sum(ways: &[Outward]) -> Outward {
        ways.iter().fold(Outward::NONE, |sum, way| sum.plus(*way))
    }

    /// Returns the normal of a triangle, counterclockwise seen from outside.
    pub fn of_triangle(a: Point, b: Point, c: Point) -> Outward {
        let normal = cross(a, b, c);
        Outward {
            x: i64::try_from(normal.x()).unwrap_or(0),
            y: i64::try_from(normal.y()).unwrap_or(0),
            z: i64::try_from(normal.z()).unwrap_or(0),
        }
    }
}

/// The greatest magnitude of a component of a direction.
const GREATEST: u64 = 32767;

/// Returns a component scaled for a direction. `greatest` is the magnitude of the greatest component, which is scaled
/// to about the greatest number that fits 16 bits.
fn scaled(component: i64, greatest: u64) -> i16 {
    let divisor = i64::try_from(greatest / (GREATEST + 1) + 1).unwrap_or(1);
    let factor = i64::try_from(GREATEST / greatest.max(1))
        .unwrap_or(1)
        .max(1);
    let quotient = component.wrapping_mul(factor).checked_div(divisor);
    i16::try_from(quotient.unwrap_or(0)).unwrap_or(0)
}

/// Returns the direction of the sum of outward directions.
pub(crate) fn direction_of(ways: &[Outward]) -> Direction {
    let sum = Outward::sum(ways);
    let flat = sum.x.unsigned_abs().max(sum.y.unsigned_abs());
    let greatest = flat.max(sum.z.unsigned_abs());
    Direction {
        x: scaled(sum.x, greatest),
        y: scaled(sum.y, greatest),
        z: scaled(sum.z, greatest),
    }
}
