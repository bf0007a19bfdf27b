//! The points of ids.
ghost use Rattle.std.specs.Prelude.{◌≡◌, IfOk, map};
ghost use Rattle.qh_model.specs.{contract.IdSets.AreIndices, headline.Predicates.place};

use qh_model::{Id, Memory, Point};
use qh_pred::point_at;
use std::alloc::Global;

/// Returns the points of ids, in their order.
///
/// # Errors
///
/// `Memory` if an allocation failed.
pub fn points_of(alloc: Global, pts: &[Point], ids: &[Id]) -> Result<Vec<Point>, Memory>
    requires { AreIndices pts.now ids.now }
    ensures { IfOk result (λ v. v.items ≡ map (place pts.now) ids.now) }
{
    let mut points = Vec::with_capacity(alloc, ids.len())?;
    for id in ids {
        points.push_reserved(point_at(pts, *id));
    }
    Ok(points)
}
