//! The verdict on faces of points.
ghost use Rattle.std.specs.Prelude.{◌<◌, ◌≤◌, IfOk, length};
ghost use Rattle.qh_model.specs.{declared.limits.TheConstants.POINT_LIMIT, headline.DistinctIds.AreDistinctIds};
ghost use Rattle.qh_check.specs.contract.Judging.{IsJudgement};

use crate::claim::ClaimedPolygons;
use crate::judgement::Judgement;
use crate::mapped::verdict_on;
use crate::naming::polygons_of;
use crate::own_indices::are_own;
use qh_model::{Id, Memory, Point, Polygon};
use qh_plane::{distinct_alone, distinct_in_threads};
use std::alloc::Global;
use std::thread::Threads;

/// Judges faces of points whose distinct ids are known. The faces are renamed only if their corners are not the
/// distinct ids themselves.
#[tactic(auto, using(qh_model::proofs::DistinctIds::ids_within, qh_model::proofs::DistinctIds::some_id))]
fn judge_distinct(
    alloc: Global,
    pts: &[Point],
    ids: &[Id],
    named: &[Point],
    faces: &[Polygon],
) -> Result<Judgement, Memory>
    requires some { 0 < length pts.now }
    requires distinct { AreDistinctIds pts.now ids.now }
    ensures { IfOk result (IsJudgement pts.now named.now faces.now) }
{
    if are_own(pts, ids, named, faces) {
        let claim = ClaimedPolygons {
            pts,
            ids,
            polygons: faces,
        };
        let verdict = verdict_on(alloc, claim)?;
        return Ok(Judgement::Told(verdict));
    }
    match polygons_of(alloc, pts, ids, named, faces)? {
        Ok(polygons) => {
            let claim = ClaimedPolygons {
                pts,
                ids,
                polygons: &polygons,
            };
            let verdict = verdict_on(alloc, claim)?;
            Ok(Judgement::Told(verdict))
        }
        Err(position) => Ok(Judgement::Stranger(position)),
    }
}

/// Judges faces of points: returns the verdict of [`check_surface`] on the distinct points, or the position of a face
/// with a corner that is not one of the points.
///
/// The corners of the faces are indices of `named`, which may be the points themselves. If several points are equal, a
/// corner may be any of them. The caller ensures that there is at least one point, and at most `POINT_LIMIT`.
///
/// The threads claim parts of the points one after the other, to find the distinct ones; the calling thread alone
/// judges the faces. `workers` of 0 counts as one.
///
/// # Errors
///
/// `Memory` if an allocation failed.
pub fn judge_faces<R: Threads + Sync>(
    rt: &R,
    alloc: Global,
    pts: &[Point],
    named: &[Point],
    faces: &[Polygon],
    workers: u32,
) -> Result<Judgement, Memory>
    requires some { 0 < length pts.now }
    requires few { length pts.now ≤ POINT_LIMIT }
    ensures { IfOk result (IsJudgement pts.now named.now faces.now) }
{
    let ids = distinct_in_threads(rt, alloc, pts, workers)?;
    judge_distinct(alloc, pts, &ids, named, faces)
}

/// Judges faces of points, as [`judge_faces`] does, in the calling thread alone.
///
/// The corners of the faces are indices of `named`, which may be the points themselves. The caller ensures that there
/// is at least one point, and at most `POINT_LIMIT`.
///
/// # Errors
///
/// `Memory` if an allocation failed.
pub fn judge_faces_alone(
    alloc: Global,
    pts: &[Point],
    named: &[Point],
    faces: &[Polygon],
) -> Result<Judgement, Memory>
    requires some { 0 < length pts.now }
    requires few { length pts.now ≤ POINT_LIMIT }
    ensures { IfOk result (IsJudgement pts.now named.now faces.now) }
{
    let ids = distinct_alone(alloc, pts)?;
    judge_distinct(alloc, pts, &ids, named, faces)
}
