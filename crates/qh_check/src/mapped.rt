//! The verdict on polygons of distinct points.
ghost use Rattle.std.specs.Prelude.{IfOk};
ghost use Rattle.qh_model.specs.contract.IdSets.{IsIdSet};
ghost use Rattle.qh_check.specs.{contract.Surfaces.IsSurfaceVerdictOf, steps.Corners.HaveCornersIn};

use crate::claim::ClaimedPolygons;
use crate::convex::is_sharp_surface;
use crate::surfaces::check_surface;
use crate::verdict::SurfaceVerdict;
use qh_lattice::reduced;
use qh_model::Memory;
use std::alloc::Global;

/// Returns the verdict on polygons of the points without a map. Triangles with an angle at each edge are accepted by a
/// test of each edge; the checker decides on others.
#[tactic(auto, using(crate::proofs::SharpSurfaces::sharp_is_right))]
fn verdict_as_given(alloc: Global, claim: ClaimedPolygons) -> Result<SurfaceVerdict, Memory>
    ensures { IfOk result (λ v. IsIdSet claim.entry.pts.now claim.entry.ids.now
        → IsSurfaceVerdictOf claim.entry.pts.now claim.entry.ids.now claim.entry.polygons.now v) }
{
    if is_sharp_surface(alloc, claim.pts, claim.ids, claim.polygons)? {
        return Ok(SurfaceVerdict::Right);
    }
    check_surface(alloc, claim)
}

/// Returns the verdict on polygons whose corners are ids of the set. The points are mapped first if a map pays. A map
/// changes no verdict.
pub fn verdict_on(alloc: Global, claim: ClaimedPolygons) -> Result<SurfaceVerdict, Memory>
    requires { HaveCornersIn claim.ids.now claim.polygons.now }
    ensures { IfOk result (λ v. IsIdSet claim.entry.pts.now claim.entry.ids.now
        → IsSurfaceVerdictOf claim.entry.pts.now claim.entry.ids.now claim.entry.polygons.now v) }
{
    match reduced(alloc, claim.pts, claim.ids)? {
        Some(images) => {
            let mapped = ClaimedPolygons {
                pts: &images,
                ids: claim.ids,
                polygons: claim.polygons,
            };
            verdict_as_given(alloc, mapped)
        }
        None => verdict_as_given(alloc, claim),
    }
}
