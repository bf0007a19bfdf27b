//! The hull of the points of a caller, in flat lists.
ghost use Rattle.std.specs.Prelude.{◌≡◌, ◌≤◌, ◌<◌, ◌↔◌, length, IfOk, IsErrOf};
ghost use Rattle.std.specs.List.{All};
ghost use Rattle.qh_model.specs.{contract.Places.IsPlace, declared.limits.TheConstants.POINT_LIMIT};
ghost use Rattle.qconvex_c.specs.contract.Flat.{IsFlatHull};

use crate::fault::Fault;
use crate::flat_hull::{FlatHull, flat_hull};
use crate::given::{CPoint, points_of};
use crate::judging::judge;
use qh_run::hull_alone;
use std::alloc::Global;

/// Returns the hull of points, in flat lists.
///
/// # Errors
///
/// `NoPoint`, `TooMany`, `Range` and `Memory`.
pub fn given_hull(alloc: Global, points: &[CPoint]) -> Result<FlatHull, Fault>
    ensures hull { IfOk result (λ f. IsFlatHull points.now f.sizes f.extremes.items f.offsets.items f.corners.items) }
    ensures none { IsErrOf result Fault.NoPoint ↔ (length points.now ≡ 0) }
    ensures many { IsErrOf result Fault.TooMany ↔ (POINT_LIMIT < length points.now) }
    ensures range { IsErrOf result Fault.Range ↔ ((0 < length points.now) × (length points.now ≤ POINT_LIMIT) × ¬ (All IsPlace points.now)) }
    ensures room { ¬ (IsErrOf result Fault.Room) }
{
    judge(points)?;
    let pts = points_of(alloc, points)?;
    let hull = hull_alone(alloc, &pts)?;
    Ok(flat_hull(alloc, &hull)?)
}
