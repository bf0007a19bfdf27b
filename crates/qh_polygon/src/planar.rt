//! The polygon of points in one plane.
ghost use Rattle.std.specs.Prelude.{◌≡◌, ◌<◌, ◌≤◌, ◌-◌, ◌++◌, ℕ, IfOk, IfSome, [], length, slice_index, reverse, take};
ghost use Rattle.std.specs.List.{All};
ghost use Rattle.qh_model.specs.{contract.IdSets.AreIndices, headline.Predicates.place, headline.Sets.Members};
ghost use Rattle.qh_model.specs.headline.{Extreme.Extreme, Polygon.IsPolygon};
ghost use Rattle.qh_polygon.specs.contract.{PlaceKeys.HasKey, PlanarSets.IsPlanarSet};
ghost use Rattle.qh_polygon.specs.steps.Chains.{turn_of, chain, joined, triangle, goes_left, IsLeftCycle};
ghost use Rattle.qh_polygon.specs.steps.{PlaceKeys.AreByPlace, InnerPlaces.IsFlatSet};

use crate::chains::{chain, turns_left};
use crate::inner_places::outer_ids;
use crate::place_keys::{place_key_id, point_keys};
use qh_model::{Id, Memory, Point, Polygon};
use qh_pred::Normal;
use std::alloc::{AllocError, Global};

/// Returns the ids in the order of their places.
fn by_place(alloc: Global, pts: &[Point], ids: &[Id]) -> Result<Vec<Id>, AllocError>
    requires { AreIndices pts.now ids.now }
    ensures order { IfOk result (λ v. AreByPlace pts.now ids.now v.items) }
    ensures indices { IfOk result (λ v. AreIndices pts.now v.items) }
    ensures known { IfOk result (λ _. All (HasKey pts.now) ids.now) }
{
    let mut keys = point_keys(alloc, pts, ids)?;
    keys.sort_unstable();
    let mut sorted = Vec::with_capacity(alloc, ids.len())?;
    let ordered: &[u128] = &keys;
    for key in ordered {
        sorted.push(place_key_id(*key))?;
    }
    Ok(sorted)
}

/// Returns two chains, there and back, as one cycle. The last id of each chain is dropped, since the other chain begins
/// with it.
fn joined(mut there: Vec<Id>, back: &[Id]) -> Result<Vec<Id>, AllocError>
    ensures { IfOk result (λ v. v.items ≡ take (length there.items - 1) there.items ++ take (length back.now - 1) back.now) }
{
    let _last = there.pop();
    let count = back.len();
    if count > 0 {
        there.extend_from_slice(&back[..count - 1])?;
    }
    Ok(there)
}

/// Returns the cycle of the two chains of ids in order of place.
fn cycle(
    alloc: Global,
    pts: &[Point],
    normal: &Normal,
    mut sorted: Vec<Id>,
) -> Result<Vec<Id>, AllocError>
    requires { AreIndices pts.now sorted.items }
    ensures { IfOk result (λ v. v.items ≡ joined (chain (turn_of pts.now normal.now) [] sorted.items)
        (chain (turn_of pts.now normal.now) [] (reverse sorted.items))) }
{
    let there = chain(alloc, pts, normal, &sorted)?;
    sorted.reverse();
    let back = chain(alloc, pts, normal, &sorted)?;
    joined(there, &back)
}

/// Returns the position of the least id.
fn least_position(ids: &[Id]) -> usize
    ensures within { result ≤ length ids.now }
    ensures proper { 0 < length ids.now → result < length ids.now }
    ensures least { (k : ℕ) → k < length ids.now → slice_index ids.now result ≤ slice_index ids.now k }
{
    let mut least = 0;
    for i in 0..ids.len() {
        if ids[i] < ids[least] {
            least = i;
        }
    }
    least
}

/// Returns the cycle of three ids that turns left, beginning with the first.
fn triangle(pts: &[Point], normal: &Normal, i: Id, j: Id, k: Id) -> Polygon
    requires i_in { i < length pts.now }
    requires j_in { j < length pts.now }
    requires k_in { k < length pts.now }
    ensures { result ≡ triangle (turn_of pts.now normal.now) i j k }
{
    if turns_left(pts, normal, i, j, k) {
        Polygon::triangle(i, j, k)
    } else {
        Polygon::triangle(i, k, j)
    }
}

/// Points, and the normal of the plane in which some of them are viewed.
#[derive(Clone, Copy, Drop)]
struct Seen<'a> {
    pts: &'a [Point],
    normal: &'a Normal,
}

/// Returns true if the cycle of four ids turns left at each.
fn goes_left(seen: Seen, i: Id, j: Id, k: Id, l: Id) -> bool
    requires i_in { i < length seen.pts.now }
    requires j_in { j < length seen.pts.now }
    requires k_in { k < length seen.pts.now }
    requires l_in { l < length seen.pts.now }
    ensures { result ≡ goes_left (turn_of seen.entry.pts.now seen.entry.normal.now) i j k l }
{
    turns_left(seen.pts, seen.normal, i, j, k)
        && turns_left(seen.pts, seen.normal, j, k, l)
        && turns_left(seen.pts, seen.normal, k, l, i)
        && turns_left(seen.pts, seen.normal, l, i, j)
}

/// Returns the cycle of four ids that turns left at each, beginning with the first, if there is one. Else one of the
/// ids lies between others.
fn quadrilateral(seen: Seen, i: Id, j: Id, k: Id, l: Id) -> Option<[Id; 4]>
    requires i_in { i < length seen.pts.now }
    requires j_in { j < length seen.pts.now }
    requires k_in { k < length seen.pts.now }
    requires l_in { l < length seen.pts.now }
    ensures { IfSome result (λ q. IsLeftCycle (turn_of seen.entry.pts.now seen.entry.normal.now) i j k l q) }
{
    // The second and the third id are put into the order that turns left; the last may follow any of the first three.
    let (j, k) = if turns_left(seen.pts, seen.normal, i, j, k) {
        (j, k)
    } else {
        (k, j)
    };
    if goes_left(seen, i, j, k, l) {
        Some([i, j, k, l])
    } else if goes_left(seen, i, j, l, k) {
        Some([i, j, l, k])
    } else if goes_left(seen, i, l, j, k) {
        Some([i, l, j, k])
    } else {
        None
    }
}

/// Returns the cycle of more ids in one plane, by the two chains of their order, beginning with the least.
fn corners(alloc: Global, pts: &[Point], normal: &Normal, ids: &[Id]) -> Result<Vec<Id>, AllocError>
    requires { AreIndices pts.now ids.now }
    ensures { IfOk result (λ v. IsFlatSet pts.now ids.now normal.now
        → IsPolygon (place pts.now) (Extreme (place pts.now) (Members ids.now)) normal.now v.items) }
{
    let sorted = by_place(alloc, pts, ids)?;
    let mut corners = cycle(alloc, pts, normal, sorted)?;
    let least = least_position(&corners);
    corners.rotate_left(least);
    Ok(corners)
}

/// Returns the polygon of points in one plane: the extreme ids, counterclockwise seen from the side to which the normal
/// points, beginning with the least id. It takes time in proportion to `n log n` for n ids.
///
/// Each id is the index of one of the points. The caller ensures `IsPlanarSet`: the ids rise, their points are
/// distinct, lie in one plane and not in one line, and the normal is that of three of them or its opposite.
///
/// # Errors
///
/// `Memory` if an allocation failed.
///
/// Source: Andrew's monotone chain (1979).
pub fn polygon(alloc: Global, pts: &[Point], ids: &[Id], normal: &Normal) -> Result<Polygon, Memory>
    requires { AreIndices pts.now ids.now }
    ensures { IfOk result (λ q. IsPlanarSet pts.now ids.now normal.now → IsPolygon (place pts.now) (Extreme (place pts.now) (Members ids.now)) normal.now q) }
{
    // One turn determines the order of three ids, and in most cases a few turns that of four.
    if ids.len() == 3 {
        return Ok(triangle(pts, normal, ids[0], ids[1], ids[2]));
    }
    if ids.len() == 4 {
        let seen = Seen { pts, normal };
        if let Some(cycle) = quadrilateral(seen, ids[0], ids[1], ids[2], ids[3]) {
            return Ok(Polygon::of(Vec::from_slice(alloc, &cycle)?));
        }
    }
    match outer_ids(alloc, pts, normal, ids)? {
        Some(outer) => Ok(Polygon::of(corners(alloc, pts, normal, &outer)?)),
        None => Ok(Polygon::of(corners(alloc, pts, normal, ids)?)),
    }
}
