//! Rays from a point inside a part, and the facet through which each leaves.
use crate::cut::facets::Facets;
use qh_mesh::FacetNo;
use qh_model::Point;
use qh_places::Budget;

/// The number of facets after which a walk is given up, and all facets are tested instead.
const STEP_LIMIT: usize = 4_096;

/// Four times the vector from the middle of four points to another point.
#[derive(Clone, Copy, Drop)]
struct Way {
    x: i64,
    y: i64,
    z: i64,
}

/// Returns the component of the vector to a coordinate, given the sum of four coordinates.
fn way_along(coordinate: i32, sum: i64) -> i64 {
    i64::from(coordinate).wrapping_mul(4).wrapping_sub(sum)
}

/// Returns the product of two components.
fn product(a: i64, b: i64) -> i128 {
    i128::from(a).wrapping_mul(i128::from(b))
}

/// Returns the difference of the products of two pairs of components.
fn minor(a: i64, d: i64, b: i64, c: i64) -> i128 {
    product(a, d).wrapping_sub(product(b, c))
}

impl Way {
    /// Returns true if `way` lies beyond the plane through `self` and `to`, as seen from inside: the three are
    /// clockwise.
    fn turns_back(self, to: Way, way: Way) -> bool {
        let x = minor(self.y, to.z, self.z, to.y).wrapping_mul(i128::from(way.x));
        let y = minor(self.z, to.x, self.x, to.z).wrapping_mul(i128::from(way.y));
        let z = minor(self.x, to.y, self.y, to.x).wrapping_mul(i128::from(way.z));
        x.wrapping_add(y).wrapping_add(z) < 0
    }
}

/// Rays from the middle of four points of a part, with the facet through which the last one left.
#[derive(Drop)]
pub(crate) struct Rays<'a> {
    facets: Facets<'a>,
    sum: Way,
    last: FacetNo,
}

impl<'a> Rays<'a> {
    /// Returns the rays from the middle of four points, if there is a facet.
    pub fn from_middle(facets: Facets<'a>, four: [Point; 4]) -> Option<Rays<'a>> {
        let mut sum = Way { x: 0, y: 0, z: 0 };
        for point in four {
            sum.x = sum.x.wrapping_add(i64::from(point.x()));
            sum.y = sum.y.wrapping_add(i64::from(point.y()));
            sum.z = sum.z.wrapping_add(i64::from(point.z()));
        }
        Some(Rays {
            facets,
            sum,
            last: facets.first_from(0)?,
        })
    }

    /// Returns the vector to a point.
    fn way(&self, point: Point) -> Way {
        Way {
            x: way_along(point.x(), self.sum.x),
            y: way_along(point.y(), self.sum.y),
            z: way_along(point.z(), self.sum.z),
        }
    }

    /// Returns a side of a facet beyond which a ray lies, if there is one.
    fn side_beyond(&self, f: FacetNo, way: Way) -> Option<usize> {
        let [a, b, c] = self.facets.corners(f)?;
        let (a, b, c) = (self.way(a), self.way(b), self.way(c));
        if a.turns_back(b, way) {
            Some(0)
        } else if b.turns_back(c, way) {
            Some(1)
        } else if c.turns_back(a, way) {
            Some(2)
        } else {
            None
        }
    }

    /// Returns the facet through which a ray leaves, by a search among all facets.
    fn sought(&self, way: Way) -> Option<FacetNo> {
        let mut places = (0..self.facets.places()).map(|place| FacetNo::new(place));
        places.find(|f| self.facets.is_live(*f) && self.side_beyond(*f, way).is_none())
    }

    /// Walks from the last facet towards the one through which a ray leaves. Returns true if the walk reached it. The
    /// last facet is then the one where the walk ended.
    fn walk(&mut self, way: Way, budget: &mut Budget) -> bool {
        for _ in 0..STEP_LIMIT {
            if !budget.spend(1) {
                return false;
            }
            let Some(side) = self.side_beyond(self.last, way) else {
                return true;
            };
            self.last = self.facets.next(self.last, side).unwrap_or(self.last);
        }
        false
    }

    /// Returns the facet through which the ray to a point leaves. If the budget is exhausted, any facet is returned.
    pub fn leaves(&mut self, point: Point, budget: &mut Budget) -> FacetNo {
        let way = self.way(point);
        let is_there = self.walk(way, budget);
        if !is_there && budget.spend(self.facets.places()) {
            self.last = self.sought(way).unwrap_or(self.last);
        }
        self.last
    }
}
