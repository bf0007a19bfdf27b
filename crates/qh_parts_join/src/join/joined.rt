//! The hull of a set from faces of its parts and polygons that close the gap between them.
ghost use Rattle.std.specs.Prelude.{◌≡◌, ◌++◌, IfOk, IfSome, IsPermutation, IsTrue};
ghost use Rattle.std.specs.List.{All};
ghost use Rattle.qh_model.specs.headline.Polygons.{RiseStrictly};
ghost use Rattle.qh_bodies.specs.contract.{Borders.HaveOneBorder, Tallies.IsTally};
ghost use Rattle.qh_parts_join.specs.{contract.Joined.IsBodyOfJoined, steps.Bridges.IsBridge};
ghost use Rattle.qh_parts_join.specs.steps.JoinedFaces.{IsBodyOfFaces};

use crate::join::bridges::are_bridges;
use crate::join::kept::Kept;
use qh_bodies::{Tally, UnsortedFaces, body_of_faces, have_one_border, out_of_order};
use qh_model::{Body, Memory, Polygon};
use std::alloc::{AllocError, Global};
use std::thread::Threads;

/// Returns true if polygons are in order.
fn are_in_order(polygons: &[Polygon]) -> bool
    ensures { IsTrue result → RiseStrictly polygons.now }
{
    out_of_order(polygons).is_none()
}

/// Returns true if bridges have the border of the faces that are gone, and each is a face of the kept ids of a set.
/// The workers check the bridges.
fn close_gap<R: Threads>(
    rt: &R,
    alloc: Global,
    kept: Kept,
    gone: &[Polygon],
    bridges: &[Polygon],
    workers: usize,
) -> Result<bool, Memory>
    ensures border { IfOk result (λ yes. IsTrue yes → HaveOneBorder gone.now bridges.now) }
    ensures faces { IfOk result (λ yes. IsTrue yes → All
        (IsBridge kept.entry.pts.now kept.entry.corners.now kept.entry.shared.now) bridges.now) }
{
    let closes = have_one_border(alloc, gone, bridges)?;
    if !closes {
        return Ok(false);
    }
    are_bridges(rt, alloc, kept, bridges, workers)
}

/// Returns copies of polygons.
fn copies_of(alloc: Global, polygons: &[Polygon]) -> Result<Vec<Polygon>, AllocError>
    ensures { IfOk result (λ v. v.items ≡ polygons.now) }
{
    let mut copies = Vec::with_capacity(alloc, polygons.len())?;
    for polygon in polygons {
        copies.push(Polygon::of(Vec::from_slice(alloc, polygon.ids())?))?;
    }
    Ok(copies)
}

/// Returns faces and bridges together.
fn with_bridges(
    alloc: Global,
    given: UnsortedFaces,
    bridges: &[Polygon],
) -> Result<UnsortedFaces, AllocError>
    ensures { IfOk result (IsPermutation (given ++ bridges.now)) }
{
    let more = UnsortedFaces::of(alloc, copies_of(alloc, bridges)?)?;
    given.and(more)
}

/// Returns the hull of a set from faces and their tally, if there is a face and they are in order, so that no two are the
/// same.
///
/// The caller ensures that the faces close up, and that each is either the polygon of a facet that stays in a part and
/// has a clear plane, or a face of the kept ids. So they are all faces of the set
/// (`qh_laws::seam::joined_faces_are_hull`).
fn body_of_joined(polygons: Vec<Polygon>, tally: Tally) -> Option<Body>
    requires { IsTally polygons.items tally }
    ensures { IfSome result (IsBodyOfFaces polygons.items) }
{
    if polygons.len() == 0 {
        return None;
    }
    if !are_in_order(&polygons) {
        return None;
    }
    Some(body_of_faces(polygons, tally))
}

/// Returns the hull of a set from faces that its parts contribute and polygons that close the gap between them. Returns
/// `None` if one of these polygons is no face of the kept ids of the set, if they do not have the border of the faces
/// that are gone, or if two faces are the same; the contract allows it in every case. Two workers sort the faces and
/// count their edges while the others check the bridges.
///
/// `given` are the faces that the parts contribute, `gone` the faces of the parts that the set does not have, and `bridges`
/// the polygons that close the gap, which may be any. The caller ensures that each of `given` is a face of the set, as
/// `body_of_joined` states it, that `given` and `gone` together close up, and that the set is solid. Fewer than three
/// `workers` count as three.
///
/// # Errors
///
/// `Memory` if an allocation failed.
pub fn join_faces<R: Threads>(
    rt: &R,
    alloc: Global,
    kept: Kept,
    given: UnsortedFaces,
    gone: &[Polygon],
    bridges: &[Polygon],
    workers: usize,
) -> Result<Option<Body>, Memory>
    ensures { IfOk result (λ found. IfSome found
        (IsBodyOfJoined kept.entry.pts.now kept.entry.corners.now kept.entry.shared.now given gone.now)) }
{
    let faces = with_bridges(alloc, given, bridges)?;
    let others = workers.saturating_sub(2);
    let ask = move || -> Result<bool, Memory>
        ensures border { IfOk result (λ yes. IsTrue yes → HaveOneBorder gone.entry.now bridges.entry.now) }
        ensures faces { IfOk result (λ yes. IsTrue yes → All
            (IsBridge kept.entry.pts.now kept.entry.corners.now kept.entry.shared.now) bridges.entry.now) }
    { close_gap(rt, alloc, kept, gone, bridges, others) };
    let (polygons, tally, closes) = faces.sorted_beside(rt, alloc, ask)?;
    let closes = closes?;
    if !closes {
        return Ok(None);
    }
    Ok(body_of_joined(polygons, tally))
}
