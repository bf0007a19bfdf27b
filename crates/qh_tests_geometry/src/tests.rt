//! The tests.
ghost use Rattle.std.specs.Prelude.{IfOk};
ghost use Rattle.qh_model.specs.contract.IdSets.{AreIndices, IsIdSet};

mod block;
mod lattice;
mod mesh;
mod model;
mod orders;
mod plane;
mod pred;

use qh_model::{Id, Memory, POINT_LIMIT, Point};
use qh_plane::distinct_alone;
use std::alloc::Global;

/// Returns the distinct ids of points. `Err` means that an allocation failed, or that there are too many points.
fn distinct_ids(alloc: Global, pts: &[Point]) -> Result<Vec<Id>, Memory>
    ensures indices { IfOk result (λ v. AreIndices pts.now v.items) }
    ensures set { IfOk result (λ v. IsIdSet pts.now v.items) }
{
    if pts.len() > POINT_LIMIT as usize {
        return Err(Memory);
    }
    distinct_alone(alloc, pts)
}
