//! Validation of the caller's points, before any hull is computed.
ghost use Rattle.std.specs.Prelude.{◌≡◌, ◌≤◌, ◌<◌, ◌↔◌, length, IsErrOf, OnOk};
ghost use Rattle.std.specs.List.{All};
ghost use Rattle.qh_model.specs.{contract.Places.IsPlace, declared.limits.TheConstants.POINT_LIMIT};

use crate::fault::Fault;
use crate::given::{CPoint, are_places};
use qh_model::POINT_LIMIT;

/// Checks that points can have a hull here: there is at least one, there are not too many, and all coordinates are in
/// range.
///
/// # Errors
///
/// In this order: `NoPoint`, `TooMany`, `Range`.
pub fn judge(points: &[CPoint]) -> Result<(), Fault>
    ensures none { IsErrOf result Fault.NoPoint ↔ (length points.now ≡ 0) }
    ensures many { IsErrOf result Fault.TooMany ↔ (POINT_LIMIT < length points.now) }
    ensures range { IsErrOf result Fault.Range ↔ ((0 < length points.now) × (length points.now ≤ POINT_LIMIT) × ¬ (All IsPlace points.now)) }
    ensures memory { ¬ (IsErrOf result Fault.Memory) }
    ensures room { ¬ (IsErrOf result Fault.Room) }
    ensures fit { OnOk result ((0 < length points.now) × (length points.now ≤ POINT_LIMIT) × All IsPlace points.now) }
{
    if points.is_empty() {
        return Err(Fault::NoPoint);
    }
    if points.len() > POINT_LIMIT as usize {
        return Err(Fault::TooMany);
    }
    if !are_places(points) {
        return Err(Fault::Range);
    }
    Ok(())
}
