//! The interior filter of a large set in one plane, which drops points before its ids are sorted.
//!
//! A cycle passes through a few ids far out on all sides. A point to the left of each side of a closed cycle lies in a
//! triangle of three ids of the cycle, for every cycle. So the point is not extreme, and the proof needs no property of
//! the far ids.
ghost use Rattle.std.specs.Prelude.{◌≡◌, ◌<◌, ℕ, IfOk, IfSome, length, filter};
ghost use Rattle.std.specs.List.Sorted.{IsStrictlyIncreasing};
ghost use Rattle.qh_model.specs.{contract.IdSets.AreIndices, headline.Extreme.Extreme, headline.Predicates.place};
ghost use Rattle.qh_model.specs.headline.Sets.{In, Members};
ghost use Rattle.qh_polygon.specs.{contract.PlanarSets.IsPlanarSet, steps.Chains.turn_of};
ghost use Rattle.qh_polygon.specs.steps.InnerPlaces.{is_inside, is_outside};

use crate::chains::turns_left;
use qh_model::{Id, Memory, Point};
use qh_pred::{Normal, point_at};
use std::alloc::{AllocError, Global};

/// The least number of ids of a set that is filtered.
const MANY: usize = 4096;

/// The step of the sample. The ids of the cycle are chosen from the sample, and the sample decides whether testing all
/// ids pays.
const LOOKED_AT: usize = 16;

/// A direction of a plane, along the two coordinates that are used.
#[derive(Clone, Copy, Drop)]
struct Direction {
    right: i64,
    up: i64,
}

/// Eight directions, counterclockwise.
const DIRECTIONS: [Direction; 8] = [
    Direction { right: 1, up: 0 },
    Direction { right: 1, up: 1 },
    Direction { right: 0, up: 1 },
    Direction { right: -1, up: 1 },
    Direction { right: -1, up: 0 },
    Direction { right: -1, up: -1 },
    Direction { right: 0, up: -1 },
    Direction { right: 1, up: -1 },
];

/// Returns two coordinates that distinguish the points of a plane. The second axis is to the left of the first, seen
/// from the side to which the normal points.
fn coordinates(normal: &Normal, p: Point) -> (i64, i64) {
    let (x, y, z) = (i64::from(p.x()), i64::from(p.y()), i64::from(p.z()));
    let (right, up, component) = if normal.z() != 0 {
        (x, y, normal.z())
    } else if normal.y() != 0 {
        (z, x, normal.y())
    } else {
        (y, z, normal.x())
    };
    if component > 0 {
        (right, up)
    } else {
        (up, right)
    }
}

impl Direction {
    /// Returns how far a point lies along this direction. The sum of two coordinates fits, and no proof depends on it.
    fn reach(self, normal: &Normal, p: Point) -> i64 {
        let (right, up) = coordinates(normal, p);
        let (right, up) = (self.right.wrapping_mul(right), self.up.wrapping_mul(up));
        right.wrapping_add(up)
    }
}

/// Returns the first of the sampled ids whose point lies furthest along a direction.
fn furthest(pts: &[Point], normal: &Normal, ids: &[Id], direction: Direction) -> Id
    requires some { 0 < length ids.now }
    requires indices { AreIndices pts.now ids.now }
    ensures { In result ids.now }
{
    let mut found = ids[0];
    let mut most = i64::MIN;
    for part in 0..ids.len() / LOOKED_AT {
        let id = ids[part * LOOKED_AT];
        let reach = direction.reach(normal, point_at(pts, id));
        if reach > most {
            most = reach;
            found = id;
        }
    }
    found
}

/// Returns ids far out along each direction in turn, without equal neighbours.
fn far_cycle(
    alloc: Global,
    pts: &[Point],
    normal: &Normal,
    ids: &[Id],
) -> Result<Vec<Id>, AllocError>
    requires some { 0 < length ids.now }
    requires indices { AreIndices pts.now ids.now }
    ensures indices { IfOk result (λ v. AreIndices pts.now v.items) }
    ensures members { IfOk result (λ v. (i : ℕ) → In i v.items → In i ids.now) }
{
    let mut cycle = Vec::with_capacity(alloc, DIRECTIONS.len())?;
    let mut before = furthest(pts, normal, ids, DIRECTIONS[DIRECTIONS.len() - 1]);
    for direction in DIRECTIONS {
        let far = furthest(pts, normal, ids, direction);
        if far != before {
            cycle.push(far)?;
        }
        before = far;
    }
    Ok(cycle)
}

/// Returns true if a point lies to the left of each side of a cycle.
fn is_inside(pts: &[Point], normal: &Normal, cycle: &[Id], id: Id) -> bool
    requires cycle_in { AreIndices pts.now cycle.now }
    requires id_in { id < length pts.now }
    ensures { result ≡ is_inside (turn_of pts.now normal.now) cycle.now id }
{
    if cycle.is_empty() {
        return false;
    }
    let mut from = cycle[0];
    for to in &cycle[1..] {
        if !turns_left(pts, normal, from, *to, id) {
            return false;
        }
        from = *to;
    }
    turns_left(pts, normal, from, cycle[0], id)
}

/// Returns the ids whose points do not lie to the left of each side of a cycle.
fn ids_outside(
    alloc: Global,
    pts: &[Point],
    normal: &Normal,
    ids: &[Id],
    cycle: &[Id],
) -> Result<Vec<Id>, AllocError>
    requires ids_in { AreIndices pts.now ids.now }
    requires cycle_in { AreIndices pts.now cycle.now }
    ensures { IfOk result (λ v. v.items ≡ filter (is_outside (turn_of pts.now normal.now) cycle.now) ids.now) }
{
    let mut kept = Vec::new(alloc);
    for id in ids {
        if !is_inside(pts, normal, cycle, *id) {
            kept.push(*id)?;
        }
    }
    Ok(kept)
}

/// Returns true if at least half of a sample of the ids have points inside a cycle, so that testing all ids pays.
fn holds_most(pts: &[Point], normal: &Normal, ids: &[Id], cycle: &[Id]) -> bool
    requires ids_in { AreIndices pts.now ids.now }
    requires cycle_in { AreIndices pts.now cycle.now }
{
    let parts = ids.len() / LOOKED_AT;
    let mut held: usize = 0;
    for part in 0..parts {
        if is_inside(pts, normal, cycle, ids[part * LOOKED_AT]) {
            held = held.saturating_add(1);
        }
    }
    held >= parts / 2
}

/// Returns the ids of a large set in one plane without those that the interior filter finds strictly inside, in the
/// order of the set; `None` if no filter pays: the set is small, or the sample shows that few points are inside.
///
/// Each id is the index of one of the points. The caller ensures `IsPlanarSet`, as for [`polygon`](crate::polygon).
/// Then the result contains all extreme ids, and so has the polygon of the set.
///
/// # Errors
///
/// `Memory` if an allocation failed.
pub fn outer_ids(
    alloc: Global,
    pts: &[Point],
    normal: &Normal,
    ids: &[Id],
) -> Result<Option<Vec<Id>>, Memory>
    requires { AreIndices pts.now ids.now }
    ensures indices { IfOk result (λ found. IfSome found (λ v. AreIndices pts.now v.items)) }
    ensures rising { IfOk result (λ found. IfSome found (λ v. IsStrictlyIncreasing ids.now → IsStrictlyIncreasing v.items)) }
    ensures within { IfOk result (λ found. IfSome found (λ v. (i : ℕ) → In i v.items → In i ids.now)) }
    ensures extremes { IfOk result (λ found. IfSome found (λ v. IsPlanarSet pts.now ids.now normal.now
        → (i : ℕ) → Extreme (place pts.now) (Members ids.now) i → In i v.items)) }
{
    if ids.len() < MANY {
        return Ok(None);
    }
    let cycle = far_cycle(alloc, pts, normal, ids)?;
    if !holds_most(pts, normal, ids, &cycle) {
        return Ok(None);
    }
    Ok(Some(ids_outside(alloc, pts, normal, ids, &cycle)?))
}
