//! The rank of a set of points: its shape and dimension.
ghost use Rattle.std.specs.Prelude.{◌<◌, ◌↔◌, IsTrue, MatchOption, IfSome, length};
ghost use Rattle.qh_model.specs.{contract.IdSets.IsIdSet, contract.IdSets.AreIndices, headline.Predicates.place};
ghost use Rattle.qh_model.specs.headline.{Sets.Members, Dimension.IsDimension};
ghost use Rattle.qh_polygon.specs.contract.Shapes.{IsInLine, IsInPlane, Each, IsFirstNot, IsShape, dimension_of};

use crate::shape::Shape;
use qh_model::{Id, Point};
use qh_pred::{in_line, point_at, vol};

/// Returns true if the points of three ids lie in one line.
fn are_in_line(pts: &[Point], i: Id, j: Id, k: Id) -> bool
    requires i_in { i < length pts.now }
    requires j_in { j < length pts.now }
    requires k_in { k < length pts.now }
    ensures { IsTrue result ↔ IsInLine pts.now i j k }
{
    in_line(point_at(pts, i), point_at(pts, j), point_at(pts, k))
}

/// Returns true if the points of four ids lie in one plane.
fn are_in_plane(pts: &[Point], i: Id, j: Id, k: Id, l: Id) -> bool
    requires i_in { i < length pts.now }
    requires j_in { j < length pts.now }
    requires k_in { k < length pts.now }
    requires l_in { l < length pts.now }
    ensures { IsTrue result ↔ IsInPlane pts.now i j k l }
{
    vol(
        point_at(pts, i),
        point_at(pts, j),
        point_at(pts, k),
        point_at(pts, l),
    ) == 0
}

/// Returns the first id that is not in line with i and j.
fn first_off_line(pts: &[Point], ids: &[Id], i: Id, j: Id) -> Option<Id>
    requires ids_in { AreIndices pts.now ids.now }
    requires i_in { i < length pts.now }
    requires j_in { j < length pts.now }
    ensures first { MatchOption result (Each (IsInLine pts.now i j) ids.now) (λ k. IsFirstNot (IsInLine pts.now i j) ids.now k) }
    ensures within { IfSome result (λ k. k < length pts.now) }
{
    for k in ids {
        if !are_in_line(pts, i, j, *k) {
            return Some(*k);
        }
    }
    None
}

/// Returns the first id that is not in the plane of i, j and k.
fn first_off_plane(pts: &[Point], ids: &[Id], i: Id, j: Id, k: Id) -> Option<Id>
    requires ids_in { AreIndices pts.now ids.now }
    requires i_in { i < length pts.now }
    requires j_in { j < length pts.now }
    requires k_in { k < length pts.now }
    ensures { MatchOption result (Each (IsInPlane pts.now i j k) ids.now) (λ l. IsFirstNot (IsInPlane pts.now i j k) ids.now l) }
{
    for l in ids {
        if !are_in_plane(pts, i, j, k, *l) {
            return Some(*l);
        }
    }
    None
}

/// Returns the shape of a set of points, in two passes over its ids, without allocation.
///
/// `ids` has at least one id, and each is the index of one of the points. The shape determines the dimension if the
/// caller ensures that the ids rise and have distinct points (`IsIdSet`).
pub fn rank(pts: &[Point], ids: &[Id]) -> Shape
    requires some { 0 < length ids.now }
    requires ids_in { AreIndices pts.now ids.now }
    ensures shape { IsShape pts.now ids.now result }
    ensures dimension { IsIdSet pts.now ids.now → IsDimension (place pts.now) (Members ids.now) (dimension_of result) }
{
    if ids.len() < 2 {
        return Shape::Point(ids[0]);
    }
    let i = ids[0];
    let j = ids[1];
    let Some(k) = first_off_line(pts, ids, i, j) else {
        return Shape::Segment(i, j);
    };
    match first_off_plane(pts, ids, i, j, k) {
        None => Shape::Flat(i, j, k),
        Some(l) => Shape::Solid(i, j, k, l),
    }
}
