//! The dimension of a shape.
ghost use Rattle.std.specs.Prelude.{◌≡◌};
ghost use Rattle.qh_polygon.specs.contract.Shapes.{dimension_of};

use crate::shape::Shape;

impl Shape {
    /// Returns the dimension of a set of this shape, from 0 to 3.
    pub fn dimension(self) -> u8
        ensures { result ≡ dimension_of self }
    {
        match self {
            Shape::Point(_) => 0,
            Shape::Segment(_, _) => 1,
            Shape::Flat(_, _, _) => 2,
            Shape::Solid(_, _, _, _) => 3,
        }
    }
}
