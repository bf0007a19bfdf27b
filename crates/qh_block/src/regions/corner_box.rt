//! The box between the points of a set that lie furthest along the diagonals of space.
//!
//! The octant of each corner of the box, facing outwards, contains one of these points. So a point of the box is a
//! convex combination of them. It is not extreme unless it is one of them, and then it is a corner of the box.
//!
//! Source: Akl and Toussaint 1978 (points between the extreme points of a few directions are thrown away).
ghost use Rattle.std.specs.Prelude.{◌≡◌, ◌<◌, ℕ, List, length};
ghost use Rattle.qh_model.specs.headline.Vector.{Vector};
ghost use Rattle.qh_block.specs.steps.CornerBoxes.{AreEndsOf, AreOutward, HasEndsOf};
ghost use Rattle.qh_block.specs.contract.CornerBoxes.{HasOutward, IsHeldBy, IsPointOf};

use crate::regions::bounds::Bounds;
use crate::regions::id_set::IdSet;
use crate::regions::region::Region;
use qh_model::Point;
use qh_pred::{greatest_of, least_of, point_at};

/// The points that lie furthest along a diagonal of space in both directions, and how far they lie.
#[derive(Clone, Copy, Drop)]
struct Diagonal {
    front: Point,
    back: Point,
    most: i64,
    least: i64,
}

impl Diagonal {
    /// Returns the diagonal after one point, which any other point replaces.
    fn at(point: Point) -> Diagonal
        ensures front { result.front ≡ point }
        ensures back { result.back ≡ point }
    {
        Diagonal {
            front: point,
            back: point,
            most: i64::MIN,
            least: i64::MAX,
        }
    }

    /// Adds a point that lies at `reach` along the diagonal.
    #[inline(always)]
    fn see(&mut self, point: Point, reach: i64)
        ensures { (pts : List Vector) (ids : List ℕ) → AreEndsOf pts ids self.old.front self.old.back
            → IsPointOf pts ids point → AreEndsOf pts ids self.new.front self.new.back }
    {
        if reach > self.most {
            self.front = point;
            self.most = reach;
        }
        if reach < self.least {
            self.back = point;
            self.least = reach;
        }
    }
}

/// The four diagonals of space, each named by the directions of y and z as x grows.
#[derive(Clone, Copy, Drop)]
struct Diagonals {
    up_up: Diagonal,
    up_down: Diagonal,
    down_up: Diagonal,
    down_down: Diagonal,
}

impl Diagonals {
    /// Returns the diagonals after one point, which any other point replaces.
    fn at(point: Point) -> Diagonals
        ensures { (pts : List Vector) (ids : List ℕ) → IsPointOf pts ids point → HasEndsOf pts ids result }
    {
        Diagonals {
            up_up: Diagonal::at(point),
            up_down: Diagonal::at(point),
            down_up: Diagonal::at(point),
            down_down: Diagonal::at(point),
        }
    }

    /// Adds a point.
    #[inline(always)]
    fn see(&mut self, point: Point)
        ensures { (pts : List Vector) (ids : List ℕ) → HasEndsOf pts ids self.old
            → IsPointOf pts ids point → HasEndsOf pts ids self.new }
    {
        let x = i64::from(point.x());
        let y = i64::from(point.y());
        let z = i64::from(point.z());
        self.up_up.see(point, x + y + z);
        self.up_down.see(point, x + y - z);
        self.down_up.see(point, x - y + z);
        self.down_down.see(point, x - y - z);
    }

    /// Returns the box between the points.
    fn bounds(&self) -> Bounds
        ensures { AreOutward self.now result }
    {
        let (a, b, c, d) = (self.up_up, self.up_down, self.down_up, self.down_down);
        let east = least_of(least_of(a.front, b.front), least_of(c.front, d.front));
        let west = greatest_of(greatest_of(a.back, b.back), greatest_of(c.back, d.back));
        let north = least_of(least_of(a.front, b.front), least_of(c.back, d.back));
        let south = greatest_of(greatest_of(a.back, b.back), greatest_of(c.front, d.front));
        let top = least_of(least_of(a.front, b.back), least_of(c.front, d.back));
        let bottom = greatest_of(greatest_of(a.back, b.front), greatest_of(c.back, d.front));
        Bounds {
            low: Point::new(west.x(), south.y(), bottom.z()),
            high: Point::new(east.x(), north.y(), top.z()),
        }
    }
}

/// The points of the box between points of a set, except its corners.
#[derive(Clone, Copy, Drop)]
pub struct CornerBox {
    bounds: Bounds,
}

impl CornerBox {
    /// Returns the box of a set of at least one id. It does not contain the point of any extreme id of the set.
    ///
    /// The box is empty if there is no point between the points that lie furthest along the diagonals.
    pub fn of(set: IdSet) -> CornerBox
        requires { 0 < length set.ids.now }
        ensures { HasOutward set.entry.pts.now set.entry.ids.now result.bounds }
    {
        let mut diagonals = Diagonals::at(point_at(set.pts, set.ids[0]));
        for id in set.ids {
            diagonals.see(point_at(set.pts, *id));
        }
        CornerBox {
            bounds: diagonals.bounds(),
        }
    }
}

impl Region for CornerBox {
    ghost held = { λ b p. IsHeldBy b.bounds p };

    #[inline(always)]
    fn has(&self, p: Point) -> bool {
        self.bounds.contains(p) && !self.bounds.has_corner(p)
    }
}
