//! The hulls of sets in a point, a line or a plane.
ghost use Rattle.std.specs.Prelude.{IfOk};
ghost use Rattle.qh_polygon.specs.contract.Shapes.{IsInLine, IsInPlane, Each, IsFirstNot, AreFirstTwo};
ghost use Rattle.qh_block.specs.steps.IdSets.{IsHullOf};

use crate::bodies::{flat_body, polygon_of};
use crate::normals::forward;
use crate::regions::IdSet;
use crate::segment::first_along;
use qh_model::{Body, Id, Memory};
use qh_polygon::polygon;
use qh_pred::{cross, point_at};
use std::alloc::Global;

/// Returns the hull of a set in the line of its first two ids, `i` and `j`.
pub(crate) fn segment_hull(alloc: Global, set: IdSet, i: Id, j: Id) -> Result<Body, Memory>
    requires two { AreFirstTwo set.ids.now i j }
    requires line { Each (IsInLine set.pts.now i j) set.ids.now }
    ensures { IfOk result (IsHullOf set.entry) }
{
    let first = first_along(set, i, j);
    let last = first_along(set, j, i);
    let ends = if first < last {
        [first, last]
    } else {
        [last, first]
    };
    flat_body(alloc, 1, polygon_of(alloc, &ends)?, 1)
}

/// Returns the hull of a set in the plane of `i`, `j` and `k`: its first two ids and the first off
/// their line.
pub(crate) fn polygon_hull(alloc: Global, set: IdSet, i: Id, j: Id, k: Id) -> Result<Body, Memory>
    requires two { AreFirstTwo set.ids.now i j }
    requires off_line { IsFirstNot (IsInLine set.pts.now i j) set.ids.now k }
    requires plane { Each (IsInPlane set.pts.now i j k) set.ids.now }
    ensures { IfOk result (IsHullOf set.entry) }
{
    let normal = forward(cross(
        point_at(set.pts, i),
        point_at(set.pts, j),
        point_at(set.pts, k),
    ));
    let polygon = polygon(alloc, set.pts, set.ids, &normal)?;
    let edges = polygon.ids().len() as u64;
    flat_body(alloc, 2, polygon, edges)
}
