//! The order in which waiting facets are processed.
//!
//! If many points lie inside, it pays to grow the surface on all sides: more points are settled early, and the surface
//! has fewer facets on the way. If few points lie inside, it pays to add near points one after the other: their facets
//! are near in memory, and each point is tested against fewer facets.
ghost use Rattle.std.specs.Prelude.{◌<◌};

use qh_model::Point;
use qh_pred::Plane;

/// The size of the sample, spread over all points, that decides if many are inside.
const LOOKED_AT: usize = 128;

/// Many points are inside if at least one in `ONE_IN` is strictly inside the initial simplex.
const ONE_IN: usize = 16;

/// An order in which waiting facets are processed.
#[derive(Clone, Copy, Debug, Drop)]
enum Order {
    /// The facet that was added last is next.
    Newest,
    /// The facet one place after the previous one is next.
    Around,
}

/// The order in which facets are processed, and its state.
#[derive(Clone, Copy, Debug, Drop)]
pub struct Turns {
    order: Order,
    /// The number of facets processed so far.
    taken: usize,
}

/// Returns true if a point is strictly below all planes.
fn is_inside(planes: &[Plane], point: Point) -> bool {
    planes.iter().all(|plane| plane.height(point) < 0)
}

/// Returns true if many points are strictly below all planes.
fn are_many_inside(planes: &[Plane], points: &[Point]) -> bool {
    let step = points.len() / LOOKED_AT + 1;
    let mut inside: usize = 0;
    for part in points.chunks(step) {
        if is_inside(planes, part[0]) {
            inside = inside.saturating_add(ONE_IN);
        }
    }
    inside >= points.len() / step
}

impl Turns {
    /// Returns the order in which the facet that was added last is next.
    pub fn newest() -> Turns {
        Turns {
            order: Order::Newest,
            taken: 0,
        }
    }

    /// Returns the order for a run over points whose first facets have these planes.
    pub fn over(planes: &[Plane], points: &[Point]) -> Turns {
        let order = if are_many_inside(planes, points) {
            Order::Around
        } else {
            Order::Newest
        };
        Turns { order, taken: 0 }
    }

    /// Returns the index of the next facet among those that wait.
    pub fn next(&mut self, waiting: usize) -> usize
        requires { 0 < waiting }
        ensures { result < waiting }
    {
        match self.order {
            Order::Newest => waiting - 1,
            Order::Around => {
                self.taken = self.taken.wrapping_add(1);
                self.taken % waiting
            }
        }
    }
}
