//! Ranges of heights in a column between planes.

use crate::regions::bounds::Bounds;
use crate::regions::coarse_planes::CoarsePlane;
use crate::regions::grid::nearest_coordinate;
use qh_model::Point;
use std::cmp::Ordering;

/// A range of numbers along the z axis, from the least to the greatest.
#[derive(Clone, Copy, Drop)]
pub struct Heights {
    pub low: i64,
    pub high: i64,
}

impl Heights {
    /// Returns the empty range of heights.
    pub fn none() -> Heights {
        Heights { low: 1, high: 0 }
    }

    /// Returns the heights between bounds.
    fn of(bounds: &Bounds) -> Heights {
        Heights {
            low: i64::from(bounds.low.z()),
            high: i64::from(bounds.high.z()),
        }
    }

    /// Returns the heights at which all places between bounds in x and y are below the near planes.
    pub fn inside(planes: &[CoarsePlane], near: &[u32], bounds: &Bounds) -> Heights {
        let mut heights = Heights::of(bounds);
        for number in near {
            if let Some(plane) = planes.get(*number as usize) {
                heights = heights.below(plane, bounds.far_corner(plane));
            }
        }
        heights
    }

    /// Returns the heights at which some place between bounds in x and y may be below the near planes.
    pub fn reached(planes: &[CoarsePlane], near: &[u32], bounds: &Bounds) -> Heights {
        let mut heights = Heights::of(bounds);
        for number in near {
            if let Some(plane) = planes.get(*number as usize) {
                heights = heights.below(plane, bounds.near_corner(plane));
            }
        }
        heights
    }

    /// Returns bounds with the x and y of other bounds and these heights.
    pub fn cut(&self, bounds: &Bounds) -> Bounds {
        let (low, high) = (bounds.low, bounds.high);
        Bounds {
            low: Point::new(low.x(), low.y(), nearest_coordinate(self.low)),
            high: Point::new(high.x(), high.y(), nearest_coordinate(self.high)),
        }
    }

    /// Returns true if there are no heights.
    pub fn is_empty(&self) -> bool {
        self.low > self.high
    }

    /// Returns the heights above `others`.
    pub fn above(&self, others: &Heights) -> Heights {
        Heights {
            low: others.high.saturating_add(1),
            high: self.high,
        }
    }

    /// Returns the heights below `others`.
    pub fn under(&self, others: &Heights) -> Heights {
        Heights {
            low: self.low,
            high: others.low.saturating_sub(1),
        }
    }

    /// Returns the heights at which a place in x and y is below a plane.
    fn below(self, plane: &CoarsePlane, place: Point) -> Heights {
        let tip = plane.tip();
        let (x, y, z) = (i64::from(tip.x()), i64::from(tip.y()), i64::from(tip.z()));
        let reach = x
            .wrapping_mul(i64::from(place.x()))
            .wrapping_add(y.wrapping_mul(i64::from(place.y())));
        let room = plane.offset().wrapping_sub(reach).wrapping_sub(1);
        let far_z = if z > 0 { self.high } else { self.low };
        if z.wrapping_mul(far_z) <= room {
            return self;
        }
        let end = room.checked_div_euclid(z.wrapping_abs()).unwrap_or(0);
        match z.cmp(&0) {
            Ordering::Greater => Heights {
                low: self.low,
                high: self.high.min(end),
            },
            Ordering::Less => Heights {
                low: self.low.max(end.wrapping_neg()),
                high: self.high,
            },
            Ordering::Equal if room < 0 => Heights::none(),
            Ordering::Equal => self,
        }
    }
}
