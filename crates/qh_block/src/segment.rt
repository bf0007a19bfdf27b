//! The ends of a set of points in one line.
ghost use Rattle.std.specs.Prelude.{◌≡◌, ◌⊎◌, ◌<◌, ◌≤ℤ◌, length};
ghost use Rattle.qh_block.specs.steps.Segments.{position, IsFirstAlong};

use crate::regions::IdSet;
use qh_model::{Id, Point};
use qh_pred::{along, point_at};

/// Returns `k` or `l`, whichever has the first point along the vector from the point of `a` to that of `b`.
fn earlier(pts: &[Point], a: Id, b: Id, k: Id, l: Id) -> Id
    requires a_in { a < length pts.now }
    requires b_in { b < length pts.now }
    requires k_in { k < length pts.now }
    requires l_in { l < length pts.now }
    ensures one { (result ≡ k) ⊎ (result ≡ l) }
    ensures not_k { position pts.now a b result ≤ℤ position pts.now a b k }
    ensures not_l { position pts.now a b result ≤ℤ position pts.now a b l }
{
    let (from, to) = (point_at(pts, a), point_at(pts, b));
    if along(from, to, point_at(pts, k)) < along(from, to, point_at(pts, l)) {
        k
    } else {
        l
    }
}

/// Returns the id with the first point along the vector from the point of `a` to that of `b`.
pub fn first_along(set: IdSet, a: Id, b: Id) -> Id
    requires some { 0 < length set.ids.now }
    requires a_in { a < length set.pts.now }
    requires b_in { b < length set.pts.now }
    ensures { IsFirstAlong set.entry.pts.now set.entry.ids.now a b result }
{
    let mut first = set.ids[0];
    for id in set.ids {
        first = earlier(set.pts, a, b, *id, first);
    }
    first
}
