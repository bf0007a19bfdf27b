//! The two steps along each edge, and the angle between their triangles.
ghost use Rattle.std.specs.Prelude.{◌↔◌, pos, ◌<ℤ◌, All, IsTrue, length};
ghost use Rattle.qh_model.specs.headline.Predicates.{place, vol};
ghost use Rattle.qh_check.specs.steps.StepKeys.{step_in, AreSharpPairs, EdgesRise, IsSharpPair};
ghost use Rattle.qh_check.specs.steps.Triangles.{IsBelow};

use crate::convex::steps::{ROOM, TriangleStep};
use qh_model::Point;
use qh_pred::{Plane, point_at};

/// Returns true if `p` is strictly below the triangle `a`, `b`, `c`, seen from the side from which it is
/// counterclockwise.
pub fn is_below(a: Point, b: Point, c: Point, p: Point) -> bool
    ensures { IsTrue result ↔ (vol a b c p <ℤ pos 0) }
{
    Plane::through(b, a, c).sees(p)
}

/// Returns true if two keys are those of the steps of one edge, and the corner past it is strictly below.
fn is_sharp_pair(pts: &[Point], up: u64, down: u64) -> bool
    requires up { IsBelow (length pts.now) (step_in up) }
    requires down { IsBelow (length pts.now) (step_in down) }
    ensures { IsTrue result → IsSharpPair (place pts.now) (step_in up) (step_in down) }
{
    if up / ROOM != down / ROOM {
        return false;
    }
    let (step, past) = (TriangleStep::of(up), TriangleStep::of(down));
    is_below(
        point_at(pts, step.from),
        point_at(pts, step.to),
        point_at(pts, step.third),
        point_at(pts, past.third),
    )
}

/// Returns true if the keys at each position are those of the steps of one edge, and the corner past it is strictly
/// below.
pub fn are_sharp_pairs(pts: &[Point], up: &[u64], down: &[u64]) -> bool
    requires up { All (λ key. IsBelow (length pts.now) (step_in key)) up.now }
    requires down { All (λ key. IsBelow (length pts.now) (step_in key)) down.now }
    ensures { IsTrue result → AreSharpPairs (place pts.now) up.now down.now }
{
    if up.len() != down.len() {
        return false;
    }
    for k in 0..up.len() {
        if !is_sharp_pair(pts, up[k], down[k]) {
            return false;
        }
    }
    true
}

/// Returns true if the edges of keys rise strictly, so that no step is taken twice.
pub fn edges_rise(keys: &[u64]) -> bool
    ensures { IsTrue result → EdgesRise keys.now }
{
    for next in 1..keys.len() {
        if keys[next - 1] / ROOM >= keys[next] / ROOM {
            return false;
        }
    }
    true
}
