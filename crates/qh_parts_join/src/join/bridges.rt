//! Polygons that close the gap between the faces of parts, and the check that each is a face of the kept ids of all
//! parts.
//!
//! A plane is tested against the own corners of each part by their blocks. The planes of consecutive polygons are
//! tested together.
ghost use Rattle.std.specs.Prelude.{◌≡◌, ◌++◌, ◌<◌, ◌↔◌, ℕ, List, IfOk, IfSome, IsTrue, Ok, length, map, pos, true};
ghost use Rattle.std.specs.List.{All, flat_map, Sorted.IsStrictlyIncreasing};
ghost use Rattle.qh_model.specs.{contract.IdSets.AreIndices, headline.Vector.Vector};
ghost use Rattle.qh_places.specs.contract.Places.{AreLevel};
ghost use Rattle.qh_pred.specs.contract.Planes.{height};
ghost use Rattle.qh_parts_join.specs.contract.Kept.{held_in, ArePlaced, AreHeld};
ghost use Rattle.qh_parts_join.specs.steps.Bridges.{places_in, IsBridge};

use crate::join::kept::Kept;
use crate::join::near_parts::{NearPart, cost_of};
use crate::join::three::Three;
use qh_model::{Id, Memory, Point, Polygon};
use qh_places::{Budget, Places};
use qh_polygon::{polygon, rising_ids};
use qh_pred::{Plane, cross, in_line, point_at};
use qh_threads::map_chunks;
use std::alloc::{AllocError, Global};
use std::thread::Threads;

/// The number of polygons whose planes are tested together.
const GROUP: usize = 4;

/// The budget of blocks and points to test, for each own corner of the parts, when the bridges of a piece are shown to
/// be faces. If the budget runs out, the bridges are refused. A piece of a round set tests 15 at most; the hull by one
/// thread takes as long as 400.
const LOOKED_FOR_EACH: u32 = 24;

/// The number of pieces for each thread into which bridges are cut. Few, since each piece has a budget of its own.
const PIECES_FOR_EACH: usize = 4;

/// Returns for each part the positions to test against some planes. It is faster if the planes have similar slants and
/// pass near one point.
fn nears_of<'a>(
    alloc: Global,
    corners: &'a [Places],
    origin: Point,
    planes: &[Plane],
) -> Result<Vec<NearPart<'a>>, AllocError>
    ensures { IfOk result (λ v. map places_in v.items ≡ corners.now) }
{
    let mut nears = Vec::new(alloc);
    for places in corners {
        let near = places.near_planes(alloc, origin, planes)?;
        nears.push(NearPart { places, near })?;
    }
    Ok(nears)
}

/// Appends to `level` the own corners of all parts whose points lie in a plane. Returns false if a corner is above it.
/// `room` is scratch for the corners of one part.
fn list_own(
    plane: &Plane,
    nears: &[NearPart],
    room: &mut Vec<Id>,
    level: &mut Vec<Id>,
) -> Result<bool, AllocError>
    ensures { IfOk result (λ below. IsTrue below → (pts : List Vector) → All (ArePlaced pts) (map places_in nears.now)
        → (ids : List ℕ) → AreLevel pts ids plane.now level.old.items
        → AreLevel pts (ids ++ flat_map held_in (map places_in nears.now)) plane.now level.new.items) }
{
    for part in nears {
        let above = part.places.on_plane(plane, &part.near, room)?;
        if let Some(_) = above {
            return Ok(false);
        }
        level.extend_from_slice(room)?;
    }
    Ok(true)
}

/// Returns true if a point lies in a plane.
fn is_on(plane: &Plane, point: Point) -> bool
    ensures { IsTrue result ↔ (height plane.now point ≡ pos 0) }
{
    plane.height(point) == 0
}

/// Appends to `level` those of some ids whose points lie in a plane. Returns false if one is above it.
fn list_ids(
    pts: &[Point],
    plane: &Plane,
    others: &[Id],
    level: &mut Vec<Id>,
) -> Result<bool, AllocError>
    requires { AreIndices pts.now others.now }
    ensures { IfOk result (λ below. IsTrue below → (ids : List ℕ) → AreLevel pts.now ids plane.now level.old.items
        → AreLevel pts.now (ids ++ others.now) plane.now level.new.items) }
{
    for id in others {
        let point = point_at(pts, *id);
        if plane.sees(point) {
            return Ok(false);
        }
        if is_on(plane, point) {
            level.push(*id)?;
        }
    }
    Ok(true)
}

/// Returns the kept ids of all parts that lie in a plane, rising, if no kept id is above it. `nears` has each part.
fn level_of(
    alloc: Global,
    kept: Kept,
    nears: &[NearPart],
    plane: &Plane,
) -> Result<Option<Vec<Id>>, Memory>
    requires { map places_in nears.now ≡ kept.corners.now }
    ensures rising { IfOk result (λ found. IfSome found (λ v. IsStrictlyIncreasing v.items)) }
    ensures level { IfOk result (λ found. IfSome found (λ v. (ids : List ℕ) → AreHeld kept.entry.corners.now kept.entry.shared.now ids
        → AreLevel kept.entry.pts.now ids plane.now v.items)) }
{
    let mut level = Vec::new(alloc);
    let mut room = Vec::new(alloc);
    let own = list_own(plane, nears, &mut room, &mut level)?;
    if !own {
        return Ok(None);
    }
    let shared = list_ids(kept.pts, plane, kept.shared, &mut level)?;
    if !shared {
        return Ok(None);
    }
    let rising = rising_ids(alloc, &level)?;
    Ok(Some(rising))
}

/// Returns true if a polygon that begins with three ids is a face of the kept ids of all parts. `nears` has each part.
fn is_face_at(
    alloc: Global,
    kept: Kept,
    nears: &[NearPart],
    three: Three,
    claimed: &Polygon,
) -> Result<bool, Memory>
    requires nears { map places_in nears.now ≡ kept.corners.now }
    requires i { three.i < length kept.pts.now }
    requires j { three.j < length kept.pts.now }
    requires k { three.k < length kept.pts.now }
    ensures { IfOk result (λ yes. IsTrue yes → IsBridge kept.entry.pts.now kept.entry.corners.now kept.entry.shared.now claimed.now) }
{
    let (a, b, c) = (
        point_at(kept.pts, three.i),
        point_at(kept.pts, three.j),
        point_at(kept.pts, three.k),
    );
    if in_line(a, b, c) {
        return Ok(false);
    }
    let plane = Plane::through(a, b, c);
    let Some(level) = level_of(alloc, kept, nears, &plane)? else {
        return Ok(false);
    };
    if !three.is_in(&level) {
        return Ok(false);
    }
    let face = polygon(alloc, kept.pts, &level, &cross(a, b, c))?;
    Ok(face.ids() == claimed.ids())
}

/// Returns true if a polygon is a face of the kept ids of all parts. `nears` has each part.
fn is_face(alloc: Global, kept: Kept, nears: &[NearPart], claimed: &Polygon) -> Result<bool, Memory>
    requires { map places_in nears.now ≡ kept.corners.now }
    ensures { IfOk result (λ yes. IsTrue yes → IsBridge kept.entry.pts.now kept.entry.corners.now kept.entry.shared.now claimed.now) }
{
    let [i, j, k, ..] = claimed.ids() else {
        return Ok(false);
    };
    let count = kept.pts.len();
    if i.index() >= count || j.index() >= count || k.index() >= count {
        return Ok(false);
    }
    let three = Three {
        i: *i,
        j: *j,
        k: *k,
    };
    is_face_at(alloc, kept, nears, three, claimed)
}

/// Returns the planes of those polygons whose first three corners are indices of points.
fn planes_of(alloc: Global, pts: &[Point], polygons: &[Polygon]) -> Result<Vec<Plane>, AllocError> {
    let mut planes = Vec::with_capacity(alloc, polygons.len())?;
    for claimed in polygons {
        if let [i, j, k, ..] = claimed.ids() {
            let corners = (pts.get(i.index()), pts.get(j.index()), pts.get(k.index()));
            if let (Some(a), Some(b), Some(c)) = corners {
                planes.push(Plane::through(*a, *b, *c))?;
            }
        }
    }
    Ok(planes)
}

/// Returns the point of the first corner of the first polygon, or another point.
fn origin_of(pts: &[Point], polygons: &[Polygon]) -> Point {
    let none = Point::new(0, 0, 0);
    let Some(claimed) = polygons.first() else {
        return none;
    };
    let [id, ..] = claimed.ids() else {
        return none;
    };
    match pts.get(id.index()) {
        Some(point) => *point,
        None => none,
    }
}

/// Returns true if each of some polygons is a face of the kept ids of all parts. It is faster if their planes have
/// similar slants. Returns false, too, if the budget runs out.
fn is_group(
    alloc: Global,
    kept: Kept,
    group: &[Polygon],
    budget: &mut Budget,
) -> Result<bool, Memory>
    ensures { IfOk result (λ yes. IsTrue yes → All
        (IsBridge kept.entry.pts.now kept.entry.corners.now kept.entry.shared.now) group.now) }
{
    let planes = planes_of(alloc, kept.pts, group)?;
    let origin = origin_of(kept.pts, group);
    let nears = nears_of(alloc, kept.corners, origin, &planes)?;
    if !budget.spend(cost_of(&nears, planes.len())) {
        return Ok(false);
    }
    for claimed in group {
        let yes = is_face(alloc, kept, &nears, claimed)?;
        if !yes {
            return Ok(false);
        }
    }
    Ok(true)
}

/// Returns true if each of some polygons is a face of the kept ids of all parts. It is faster if near polygons follow
/// each other. Returns false, too, if the budget runs out.
fn are_faces(alloc: Global, kept: Kept, polygons: &[Polygon]) -> Result<bool, Memory>
    ensures { IfOk result (λ yes. IsTrue yes → All
        (IsBridge kept.entry.pts.now kept.entry.corners.now kept.entry.shared.now) polygons.now) }
{
    let mut budget = Budget::for_each(kept.corner_count(), LOOKED_FOR_EACH);
    let mut rest = polygons;
    while rest.len() > 0 {
        let (group, others) = rest.split_at(GROUP.min(rest.len()));
        let yes = is_group(alloc, kept, group, &mut budget)?;
        if !yes {
            return Ok(false);
        }
        rest = others;
    }
    Ok(true)
}

/// Returns true if every answer is true.
fn are_all(answers: &[Result<bool, Memory>]) -> Result<bool, Memory>
    ensures { IfOk result (λ all. IsTrue all → All (λ a. a ≡ Ok true) answers.now) }
{
    for answer in answers {
        let yes = (*answer)?;
        if !yes {
            return Ok(false);
        }
    }
    Ok(true)
}

/// Returns true if each of some polygons is a face of the kept ids of a set, by a number of threads. `workers` of 0
/// counts as one.
pub(crate) fn are_bridges<R: Threads>(
    rt: &R,
    alloc: Global,
    kept: Kept,
    bridges: &[Polygon],
    workers: usize,
) -> Result<bool, Memory>
    ensures { IfOk result (λ all. IsTrue all → All
        (IsBridge kept.entry.pts.now kept.entry.corners.now kept.entry.shared.now) bridges.now) }
{
    let look = move |_start: usize, part: &[Polygon]| -> Result<bool, Memory>
        ensures { IfOk result (λ yes. IsTrue yes → All
            (IsBridge kept.entry.pts.now kept.entry.corners.now kept.entry.shared.now) part.now) }
    { are_faces(alloc, kept, part) };
    let size = bridges.len() / workers.max(1).saturating_mul(PIECES_FOR_EACH) + 1;
    let answers = map_chunks(rt, alloc, workers, bridges, size, &look)?;
    are_all(&answers)
}
