//! The search for the first polygon that is no piece of a face. The hull is computed, and each polygon is looked up in
//! it. A polygon that is not found is tested by its plane.
ghost use Rattle.std.specs.{Prelude.IfOk, Prelude.MatchOption, List.All};
ghost use Rattle.qh_model.specs.{contract.IdSets.IsIdSet, headline.Dimension.IsDimension, headline.Predicates.place};
ghost use Rattle.qh_model.specs.headline.Sets.{Members};
ghost use Rattle.qh_check.specs.steps.{Faces.IsFaceOf, Faces.IsFaultOf, Findings.IsFound, Findings.IsSeen};

use crate::claim::ClaimedPolygons;
use crate::face_table::FaceTable;
use crate::faces::fault_of;
use crate::fault::FaceFault;
use crate::findings::Finding;
use crate::hull_faces::HullFaces;
use qh_block::hull;
use qh_model::{Memory, Polygon};
use std::alloc::Global;

/// Returns the fault of a polygon, if it is not found among the faces of the hull and has a fault.
fn fault_beside(
    alloc: Global,
    claim: ClaimedPolygons,
    faces: &[Polygon],
    table: &mut FaceTable,
    polygon: &Polygon,
) -> Result<Option<FaceFault>, Memory>
    ensures { IfOk result (λ fault. MatchOption fault (IsSeen claim.entry.pts.now claim.entry.ids.now faces.now polygon.now)
        (IsFaultOf claim.entry.pts.now claim.entry.ids.now polygon.now)) }
{
    let hull = HullFaces {
        pts: claim.pts,
        faces,
    };
    if table.has_piece(hull, polygon)? {
        return Ok(None);
    }
    fault_of(alloc, claim, polygon)
}

/// Returns a polygon of a claim that is no piece of a face of the hull, if there is one. The faces of the hull are
/// given.
fn fault_among(
    alloc: Global,
    claim: ClaimedPolygons,
    faces: &[Polygon],
) -> Result<Option<Finding>, Memory>
    ensures { IfOk result (λ found. MatchOption found
        (All (IsSeen claim.entry.pts.now claim.entry.ids.now faces.now) claim.entry.polygons.now)
        (IsFound claim.entry.pts.now claim.entry.ids.now claim.entry.polygons.now)) }
{
    let mut table = FaceTable::over(alloc, faces, claim.pts.len())?;
    for position in 0..claim.polygons.len() {
        let polygon = &claim.polygons[position];
        let fault = fault_beside(alloc, claim, faces, &mut table, polygon)?;
        if let Some(fault) = fault {
            return Ok(Some(Finding { position, fault }));
        }
    }
    Ok(None)
}

/// Returns a polygon of a claim that is no piece of a face of its set, if there is one. The set is a solid.
pub(crate) fn find_fault(alloc: Global, claim: ClaimedPolygons) -> Result<Option<Finding>, Memory>
    ensures { IfOk result (λ found. IsIdSet claim.entry.pts.now claim.entry.ids.now
        → IsDimension (place claim.entry.pts.now) (Members claim.entry.ids.now) 3
        → MatchOption found (All (IsFaceOf claim.entry.pts.now claim.entry.ids.now) claim.entry.polygons.now)
        (IsFound claim.entry.pts.now claim.entry.ids.now claim.entry.polygons.now)) }
{
    let body = hull(alloc, claim.pts, claim.ids)?;
    fault_among(alloc, claim, &body.polygons)
}
