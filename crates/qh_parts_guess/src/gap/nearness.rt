//! The rule that decides whether planes of faces come near few points of a sample.
//!
//! Joining parts needs, for many planes, a search for the points near them, by blocks of points. If a set is thin and
//! slanted, blocks exclude few points, and most points are near each plane.
ghost use Rattle.qh_model.specs.contract.IdSets.{AreIndices};

use qh_model::{Id, Memory, Point, Polygon};
use qh_places::{Outward, Places};
use qh_pred::Plane;
use std::alloc::{AllocError, Global};

/// The number of faces whose planes are tested, spread over all faces.
const ASKED: usize = 128;

/// The least number of points of a sample for each point near a plane, on average, for parts to pay. Of 1,024 points of
/// a sphere a plane is near a sixth, of an ellipsoid of the axes 9, 6 and 2 near a quarter, of a slanted thin plate
/// near most.
const NEAR_SHARE: usize = 3;

/// Returns the points of the first three corners of a polygon, if it has three and all are indices of points.
fn three_corners(pts: &[Point], polygon: &Polygon) -> Option<[Point; 3]> {
    let [i, j, k, ..] = polygon.ids() else {
        return None;
    };
    Some([
        *pts.get(i.index())?,
        *pts.get(j.index())?,
        *pts.get(k.index())?,
    ])
}

/// Returns the outward direction at each id of a rising list, by the polygons that begin with it.
pub(crate) fn ways_out(
    alloc: Global,
    pts: &[Point],
    rising: &[Id],
    polygons: &[Polygon],
) -> Result<Vec<Outward>, AllocError> {
    let mut ways = vec![in alloc; Outward::NONE; rising.len()]?;
    for polygon in polygons {
        let [first, ..] = polygon.ids() else {
            continue;
        };
        let place = rising.partition_point(|other| other.number() < first.number());
        if let (Some(way), Some(corners)) = (ways.get_mut(place), three_corners(pts, polygon)) {
            let [a, b, c] = corners;
            *way = way.plus(Outward::of_triangle(a, b, c));
        }
    }
    Ok(ways)
}

/// Returns true if the planes of faces come near few points of ids. `outward` has a guess of the outward direction for
/// each id. The search is faster if ids near each other in space are near each other in the list.
///
/// # Errors
///
/// `Memory` if an allocation failed.
pub(crate) fn come_near_few(
    alloc: Global,
    pts: &[Point],
    ids: &[Id],
    outward: &[Outward],
    polygons: &[Polygon],
) -> Result<bool, Memory>
    requires { AreIndices pts.now ids.now }
{
    let places = Places::in_order(alloc, pts, ids, outward)?;
    let step = polygons.len() / ASKED + 1;
    let (mut asked, mut cost) = (0usize, 0usize);
    for polygon in polygons.iter().step_by(step).take(polygons.len() / step) {
        if let Some(corners) = three_corners(pts, polygon) {
            let [a, b, c] = corners;
            let near = places.near_planes(alloc, a, &[Plane::through(a, b, c)])?;
            asked = asked.saturating_add(1);
            cost = cost.saturating_add(near.cost(1));
        }
    }
    Ok(cost.saturating_mul(NEAR_SHARE) <= asked.saturating_mul(ids.len()))
}
