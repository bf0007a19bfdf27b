//! Slots for points that lie close together, as in lattices and grids, or in one line: one slot for each place of the
//! box around them, or for each place along the line.
ghost use Rattle.std.specs.Prelude.{◌≡◌, ◌<◌, ◌↔◌, IsTrue};
ghost use Rattle.qh_plane.specs.steps.CloseBoxes.{slot_of};

use qh_model::Point;
use qh_polygon::biased;
use qh_pred::in_line;

/// The greatest number of slots of a box for each point.
const SLOTS_FOR_EACH: u64 = 2;

/// The greatest number of slots of a line for each point.
const LINE_SLOTS_FOR_EACH: u64 = 3;

/// The number of points that decide whether all points appear to lie in one line.
const LOOKED_AT: usize = 32;

/// The greatest number of leading points of a list that are tested first. If these lie too far apart for the whole
/// list, the other points are not tested.
const FIRST_POINTS: usize = 4096;

/// A table with fewer slots fits into the cache of one processor. A slot takes four bytes.
pub const CACHE_SLOTS: u64 = 65_536;

/// A closed range of numbers.
#[derive(Clone, Copy, Drop)]
struct CoordinateRange {
    least: u64,
    greatest: u64,
}

/// The range of the coordinates of points along each axis.
#[derive(Clone, Copy, Drop)]
struct BoundingBox {
    x: CoordinateRange,
    y: CoordinateRange,
    z: CoordinateRange,
}

/// The slots of a box of places: its least coordinates, the factor of each coordinate in a slot's number, and the
/// number of slots.
#[derive(Clone, Copy, Drop)]
pub struct CloseBox {
    x: u64,
    y: u64,
    z: u64,
    x_factor: u64,
    y_factor: u64,
    z_factor: u64,
    /// The number of slots.
    pub slots: u64,
}

impl CoordinateRange {
    /// Returns an empty range.
    fn none() -> CoordinateRange {
        CoordinateRange {
            least: u64::MAX,
            greatest: 0,
        }
    }

    /// Returns the range extended by a number.
    fn with(self, number: u64) -> CoordinateRange {
        CoordinateRange {
            least: self.least.min(number),
            greatest: self.greatest.max(number),
        }
    }

    /// Returns the number of numbers in the range.
    fn extent(&self) -> u64 {
        self.greatest.saturating_sub(self.least).saturating_add(1)
    }
}

impl BoundingBox {
    /// Returns the ranges of the coordinates of points.
    fn of(pts: &[Point]) -> BoundingBox {
        let [mut x, mut y, mut z] = [CoordinateRange::none(); 3];
        for point in pts {
            x = x.with(biased(point.x()));
            y = y.with(biased(point.y()));
            z = z.with(biased(point.z()));
        }
        BoundingBox { x, y, z }
    }

    /// Returns the box with a factor for each coordinate.
    fn with_factors(&self, x_factor: u64, y_factor: u64, z_factor: u64, slots: u64) -> CloseBox {
        CloseBox {
            x: self.x.least,
            y: self.y.least,
            z: self.z.least,
            x_factor,
            y_factor,
            z_factor,
            slots,
        }
    }

    /// Returns slots with one for each place of the box; `None` if there are too many.
    fn full(&self) -> Option<CloseBox> {
        let height = self.z.extent();
        let area = self.y.extent().checked_mul(height)?;
        let slots = self.x.extent().checked_mul(area)?;
        Some(self.with_factors(area, height, 1, slots))
    }

    /// Returns slots with one for each place along the longest axis.
    fn along_axis(&self) -> CloseBox {
        let (x, y, z) = (self.x.extent(), self.y.extent(), self.z.extent());
        if x >= y && x >= z {
            self.with_factors(1, 0, 0, x)
        } else if y >= z {
            self.with_factors(0, 1, 0, y)
        } else {
            self.with_factors(0, 0, 1, z)
        }
    }

    /// Returns slots for the places of the box or for those along its longest axis, if they are few for `count` points.
    fn slots_for(&self, count: u64) -> Option<CloseBox> {
        let full = self.full();
        if full.is_some_and(|full| full.slots / SLOTS_FOR_EACH <= count) {
            return full;
        }
        let line = self.along_axis();
        (line.slots / LINE_SLOTS_FOR_EACH <= count).then_some(line)
    }
}

/// Returns true if points appear to lie in one line, judged by a few points spread over the list.
fn seem_in_line(pts: &[Point]) -> bool {
    let Some(&first) = pts.first() else {
        return true;
    };
    let step = pts.len() / LOOKED_AT + 1;
    let mut other = first;
    for &point in pts.iter().step_by(step) {
        if same_point(first, other) {
            other = point;
        }
        if !in_line(first, other, point) {
            return false;
        }
    }
    true
}

impl CloseBox {
    /// Returns slots for the box around some of the points if they are few for all points, or for the line in which all
    /// points appear to lie.
    fn around_some(pts: &[Point], some: &[Point]) -> Option<CloseBox> {
        let slots = BoundingBox::of(some).slots_for(pts.len() as u64)?;
        if slots.is_line() && !seem_in_line(pts) {
            return None;
        }
        Some(slots)
    }

    /// Returns slots as [`around`](CloseBox::around) does, for the box around the first points of the list.
    pub fn around_first(pts: &[Point]) -> Option<CloseBox> {
        let (first, _) = pts.split_at(pts.len().min(FIRST_POINTS));
        CloseBox::around_some(pts, first)
    }

    /// Returns slots for points that lie close together, or appear to lie in one line, if the slots are few for the
    /// number of points.
    pub fn around(pts: &[Point]) -> Option<CloseBox> {
        CloseBox::around_some(pts, pts)
    }

    /// Returns true if the slots distinguish places along one axis only.
    fn is_line(&self) -> bool {
        self.x_factor == 0 || self.y_factor == 0 || self.z_factor == 0
    }

    /// Returns the slot of a point.
    pub fn slot(&self, point: Point) -> u64
        ensures { result ≡ slot_of self.now point }
    {
        let x = biased(point.x())
            .saturating_sub(self.x)
            .wrapping_mul(self.x_factor);
        let y = biased(point.y())
            .saturating_sub(self.y)
            .wrapping_mul(self.y_factor);
        let z = biased(point.z())
            .saturating_sub(self.z)
            .wrapping_mul(self.z_factor);
        x.wrapping_add(y).wrapping_add(z)
    }
}

/// Returns true if two points are equal.
pub fn same_point(p: Point, q: Point) -> bool
    ensures { IsTrue result ↔ p ≡ q }
{
    p.x() == q.x() && p.y() == q.y() && p.z() == q.z()
}
