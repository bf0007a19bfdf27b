//! A number in the range of coordinates.
ghost use Rattle.qh_model.specs.headline.Limits.{IsCoordinate};

/// A number from -`COORDINATE_LIMIT` to `COORDINATE_LIMIT`.
#[derive(Clone, Copy, Debug)]
pub struct Coordinate {
    pub value: i32,
    pub ghost in_limit: { IsCoordinate value },
}
