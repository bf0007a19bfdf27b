//! Regions of space that are known to be inside the hull of a set.
ghost use Rattle.std.specs.Prelude.{IsTrue};
ghost use Rattle.qh_model.specs.headline.Vector.{Vector};

use qh_model::Point;

/// A region of space.
pub trait Region {
    /// Postcondition of `has` for a point for which it returns true.
    ghost held: { Self → Vector → Type 0 };

    /// Returns true if a test shows that the region has a point. It may return false for a point of the region.
    fn has(&self, p: Point) -> bool
        ensures { IsTrue result → held self.now p };
}
