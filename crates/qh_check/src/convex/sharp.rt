//! The check of a surface of triangles.
ghost use Rattle.std.specs.Prelude.{◌≤◌, All, IfOk, IsTrue, length};
ghost use Rattle.qh_model.specs.{contract.IdSets.AreIndices, contract.IdSets.IsIdSet, headline.Predicates.place};
ghost use Rattle.qh_model.specs.headline.Sets.{Members};
ghost use Rattle.qh_check.specs.{contract.SharpSurface.IsSharpSurface, declared.convex.steps.TheConstants.ROOM};
ghost use Rattle.qh_check.specs.steps.{Sharp.AreSharp, Triangles.IsBelow};

use crate::convex::corners::hidden_ids;
use crate::convex::hidden::Surroundings;
use crate::convex::pairs::{are_sharp_pairs, edges_rise};
use crate::convex::rays::Ray;
use crate::convex::steps::Steps;
use crate::convex::triangles::{Triangle, triangles_of};
use qh_model::{Id, Memory, POINT_LIMIT, Point, Polygon};
use qh_pred::{Plane, point_at};
use std::alloc::Global;

/// The number of triangles that are compared with all ids before each edge is tested.
const LOOKED_AT: usize = 4;

/// Returns true if the points of more than three ids are not strictly below a triangle.
fn is_shared(pts: &[Point], ids: &[Id], t: Triangle) -> bool
    requires { IsBelow (length pts.now) t }
{
    let a = point_at(pts, t.i());
    let turned = Plane::through(point_at(pts, t.j()), a, point_at(pts, t.k()));
    let own = ids.iter().filter_map(|id| pts.get(id.index()));
    own.filter(|p| !turned.sees(**p)).nth(3).is_some()
}

/// Returns true if one of a few triangles shows that the triangles are not sharp. It is a guess, which saves the test
/// of each edge.
fn are_plainly_flat(pts: &[Point], ids: &[Id], triangles: &[Triangle]) -> bool
    requires { All (IsBelow (length pts.now)) triangles.now }
{
    let apart = triangles.len() / LOOKED_AT + 1;
    for k in 0..LOOKED_AT {
        if let Some(t) = triangles.get(k.saturating_mul(apart)) {
            if is_shared(pts, ids, *t) {
                return true;
            }
        }
    }
    false
}

/// Returns true if triangles are the hull of a set, by a test of each edge and each hidden id.
fn are_sharp(
    alloc: Global,
    pts: &[Point],
    ids: &[Id],
    triangles: &[Triangle],
) -> Result<bool, Memory>
    requires indices { AreIndices pts.now ids.now }
    requires triangles { All (IsBelow (length pts.now)) triangles.now }
    requires few { length pts.now ≤ ROOM }
    ensures { IfOk result (λ b. IsTrue b → AreSharp (place pts.now) ids.now triangles.now) }
{
    let Some(first) = triangles.first() else {
        return Ok(false);
    };
    if are_plainly_flat(pts, ids, triangles) {
        return Ok(false);
    }
    let ray = Ray::guess(pts, ids, *first);
    if !ray.meets_once(pts, triangles) {
        return Ok(false);
    }
    let Some(hidden) = hidden_ids(alloc, pts, ids, triangles)? else {
        return Ok(false);
    };
    let steps = Steps::sorted(alloc, triangles)?;
    if !edges_rise(&steps.up) || !are_sharp_pairs(pts, &steps.up, &steps.down) {
        return Ok(false);
    }
    let surroundings = Surroundings {
        pts,
        up: &steps.up,
        down: &steps.down,
        middle: ray.from,
    };
    Ok(surroundings.has_under(alloc, &hidden)?)
}

/// Checks if polygons are the hull of a set, all of them triangles with an angle at each edge. The contract allows
/// `false` in every case. The polygons may have any order and begin at any corner. Ids that are not corners may lie under
/// triangles.
///
/// Each id is the index of one of the points. The caller ensures that the ids have distinct points (`IsIdSet`). If the
/// result is `false`, the polygons may be the hull nevertheless: two triangles may lie in one plane, there may be fewer
/// polygons than ids (the hull is then small, and computed fast) or more than `POINT_LIMIT` points, or the middle of
/// the points, rounded, may not be strictly inside.
///
/// # Errors
///
/// `Memory` if an allocation failed.
///
/// Source: Mehlhorn, Naeher, Seel, Seidel, Schilz, Schirra and Uhrig 1999 (checking geometric programs).
#[tactic(auto, using(crate::proofs::SharpFaces::sharp_surface))]
pub fn is_sharp_surface(
    alloc: Global,
    pts: &[Point],
    ids: &[Id],
    polygons: &[Polygon],
) -> Result<bool, Memory>
    requires { AreIndices pts.now ids.now }
    ensures { IfOk result (λ b. IsTrue b → IsIdSet pts.now ids.now → IsSharpSurface (place pts.now) (Members ids.now) polygons.now) }
{
    if pts.len() > POINT_LIMIT as usize || polygons.len() < ids.len() {
        return Ok(false);
    }
    match triangles_of(alloc, pts, polygons)? {
        Some(triangles) => are_sharp(alloc, pts, ids, &triangles),
        None => Ok(false),
    }
}
