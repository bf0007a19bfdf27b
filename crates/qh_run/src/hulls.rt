//! The hull of a list of points.
ghost use Rattle.std.specs.Prelude.{◌≡◌, ◌≤◌, ◌<◌, IfOk, length};
ghost use Rattle.qh_model.specs.{declared.limits.TheConstants.POINT_LIMIT, headline.DistinctIds.AreDistinctIds};
ghost use Rattle.qh_model.specs.headline.{Hull.IsBody, Hull.IsHull, Predicates.place, Sets.Members};

use crate::alone::body_alone;
use qh_model::{Body, Hull, Id, Memory, Point};
use qh_plane::distinct_alone;
use std::alloc::Global;

/// Returns the hull of a list of points, given the hull of its distinct ids.
///
/// `ids` are the distinct ids, rising, as `qh_plane::distinct` returns them, and the list has at most `POINT_LIMIT`
/// points. The caller ensures these conditions.
pub fn hull_of_body(pts: &[Point], ids: &[Id], body: Body) -> Hull
    requires few { length pts.now ≤ POINT_LIMIT }
    requires distinct { AreDistinctIds pts.now ids.now }
    requires body { IsBody (place pts.now) (Members ids.now) body }
    ensures hull { IsHull pts.now result }
    ensures body { result.body ≡ body }
{
    Hull {
        given: pts.len() as u32,
        distinct: ids.len() as u32,
        body,
    }
}

/// Returns the hull of a list of points, computed by the calling thread alone.
///
/// The caller ensures that the list has at least one point and at most `POINT_LIMIT` points.
///
/// # Errors
///
/// `Memory` if an allocation failed.
pub fn hull_alone(alloc: Global, pts: &[Point]) -> Result<Hull, Memory>
    requires some { 0 < length pts.now }
    requires few { length pts.now ≤ POINT_LIMIT }
    ensures { IfOk result (λ h. IsHull pts.now h) }
{
    let ids = distinct_alone(alloc, pts)?;
    let body = body_alone(alloc, pts, &ids)?;
    Ok(hull_of_body(pts, &ids, body))
}
