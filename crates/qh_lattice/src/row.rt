//! Rows of whole numbers, and the coordinates of points along them.
ghost use Rattle.std.specs.Prelude.{◌≡◌, ◌≤◌, ◌<◌, ◌*◌, ◌<ℤ◌, ◌*ℤ◌, IfSome, pos, unsigned_abs};
ghost use Rattle.qh_model.specs.{declared.limits.TheConstants.COORDINATE_LIMIT, headline.Limits.IsCoordinate};
ghost use Rattle.qh_model.specs.headline.Vector.{dot};
ghost use Rattle.qh_lattice.specs.declared.row.TheConstants.{CENTRE_LIMIT};

use qh_model::{COORDINATE_LIMIT, Point};

/// The greatest absolute value of a product of two coordinates: 2^60.
const PRODUCT_LIMIT: u64 = 1152921504606846976;

/// The greatest absolute value of the centre of a row: 2^62.
pub(crate) const CENTRE_LIMIT: u64 = 4611686018427387904;

/// One row of a map: a vector, and the value along it that becomes 0 before the rest is multiplied by a whole number.
#[derive(Clone, Copy, Debug, Drop)]
pub(crate) struct Row {
    pub by: Point,
    pub centre: i64,
    pub scale: i64,
    ghost near: { unsigned_abs centre ≤ CENTRE_LIMIT },
    ghost above: { pos 0 <ℤ scale },
    ghost small: { unsigned_abs scale ≤ COORDINATE_LIMIT },
}

/// Returns the product of two coordinates.
fn product(a: i32, b: i32) -> i64
    requires a { IsCoordinate a }
    requires b { IsCoordinate b }
    ensures value { result ≡ a *ℤ b }
    ensures limit { unsigned_abs result ≤ PRODUCT_LIMIT }
{
    i64::from(a) * i64::from(b)
}

/// Returns the scalar product of two vectors whose components are coordinates.
pub(crate) fn reach(by: Point, p: Point) -> i64
    ensures value { result ≡ dot by p }
    ensures limit { unsigned_abs result ≤ 3 * PRODUCT_LIMIT }
{
    product(by.x(), p.x()) + product(by.y(), p.y()) + product(by.z(), p.z())
}

/// Returns a coordinate at a scale, if the result is in range.
fn scaled(offset: i64, scale: i64) -> Option<i32>
    requires offset { unsigned_abs offset ≤ COORDINATE_LIMIT }
    requires scale { unsigned_abs scale ≤ COORDINATE_LIMIT }
    ensures { IfSome result (λ c. (c ≡ offset *ℤ scale) × IsCoordinate c) }
{
    let place = offset * scale;
    if place.unsigned_abs() <= u64::from(COORDINATE_LIMIT) {
        Some(place as i32)
    } else {
        None
    }
}

impl Row {
    ghost use Rattle.qh_lattice.specs.steps.Rows.{along_row};

    /// Returns the coordinate of the image of a point, if it is in range.
    pub fn image(&self, p: Point) -> Option<i32>
        ensures { IfSome result (λ c. (c ≡ along_row self.now p) × IsCoordinate c) }
    {
        let offset = reach(self.by, p) - self.centre;
        if offset.unsigned_abs() <= u64::from(COORDINATE_LIMIT) {
            scaled(offset, self.scale)
        } else {
            None
        }
    }
}
