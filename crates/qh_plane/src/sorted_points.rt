//! Points in the order of their places, or in reverse, as files often have them. One pass shows that they differ.
ghost use Rattle.std.specs.Prelude.{IsTrue};
ghost use Rattle.qh_plane.specs.steps.SortedPoints.{NumbersRise, NumbersFall, AllDiffer};

use crate::hashed_keys::place_number;
use qh_model::Point;

/// Returns true if the number of each place is above that of the place before.
fn numbers_rise(pts: &[Point]) -> bool
    ensures { IsTrue result → NumbersRise pts.now }
{
    for j in 1..pts.len() {
        if place_number(pts[j - 1]) >= place_number(pts[j]) {
            return false;
        }
    }
    true
}

/// Returns true if the number of each place is below that of the place before.
fn numbers_fall(pts: &[Point]) -> bool
    ensures { IsTrue result → NumbersFall pts.now }
{
    for j in 1..pts.len() {
        if place_number(pts[j - 1]) <= place_number(pts[j]) {
            return false;
        }
    }
    true
}

/// Returns true if points are in order or in reverse, which shows that they differ.
pub fn are_in_order(pts: &[Point]) -> bool
    ensures { IsTrue result → AllDiffer pts.now }
{
    numbers_rise(pts) || numbers_fall(pts)
}
