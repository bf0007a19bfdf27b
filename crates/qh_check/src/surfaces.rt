//! Checks if polygons, pieces of faces in any order, are the surface of a hull.
ghost use Rattle.std.specs.Prelude.{◌<◌, ℕ, List, IfOk, length};
ghost use Rattle.std.specs.List.{All};
ghost use Rattle.qh_model.specs.{contract.IdSets.IsIdSet, headline.Dimension.IsDimension, headline.Predicates.place};
ghost use Rattle.qh_model.specs.headline.{Sets.Members, Vector.Vector};
ghost use Rattle.qh_check.specs.{contract.Surfaces.IsSurfaceVerdictOf, steps.Faces.IsFaceOf};

use crate::claim::ClaimedPolygons;
use crate::claims::are_polygons_of;
use crate::search::find_fault;
use crate::verdict::SurfaceVerdict;
use qh_bodies::{open_step, repeated_step};
use qh_model::{Memory, Polygon};
use qh_polygon::{Shape, rank};
use std::alloc::Global;

/// Returns the verdict on polygons that are pieces of faces of a solid set. They have to close up, with two at each
/// side.
fn judge_steps(alloc: Global, polygons: &[Polygon]) -> Result<SurfaceVerdict, Memory>
    ensures { IfOk result (λ v. (pts : List Vector) (ids : List ℕ) → IsIdSet pts ids → IsDimension (place pts) (Members ids) 3
        → 0 < length polygons.now → All (IsFaceOf pts ids) polygons.now → IsSurfaceVerdictOf pts ids polygons.now v) }
{
    if let Some(step) = repeated_step(alloc, polygons)? {
        return Ok(SurfaceVerdict::Twice(step.from, step.to));
    }
    match open_step(alloc, polygons)? {
        Some(step) => Ok(SurfaceVerdict::Open(step.from, step.to)),
        None => Ok(SurfaceVerdict::Right),
    }
}

/// Checks polygons of a solid set. There is at least one polygon.
fn check_solid_surface(alloc: Global, claim: ClaimedPolygons) -> Result<SurfaceVerdict, Memory>
    requires { 0 < length claim.polygons.now }
    ensures { IfOk result (λ v. IsIdSet claim.entry.pts.now claim.entry.ids.now
        → IsDimension (place claim.entry.pts.now) (Members claim.entry.ids.now) 3
        → IsSurfaceVerdictOf claim.entry.pts.now claim.entry.ids.now claim.entry.polygons.now v) }
{
    if let Some(finding) = find_fault(alloc, claim)? {
        return Ok(SurfaceVerdict::NoPiece(finding.position, finding.fault));
    }
    judge_steps(alloc, claim.polygons)
}

/// Checks polygons of a set that is not solid.
#[tactic(auto, using(crate::proofs::SurfaceVerdicts::are_polygons, crate::proofs::SurfaceVerdicts::are_others))]
fn compare_surface(alloc: Global, claim: ClaimedPolygons) -> Result<SurfaceVerdict, Memory>
    ensures { IfOk result (λ v. IsIdSet claim.entry.pts.now claim.entry.ids.now
        → ¬ (IsDimension (place claim.entry.pts.now) (Members claim.entry.ids.now) 3)
        → IsSurfaceVerdictOf claim.entry.pts.now claim.entry.ids.now claim.entry.polygons.now v) }
{
    if are_polygons_of(alloc, claim)? {
        Ok(SurfaceVerdict::Right)
    } else {
        Ok(SurfaceVerdict::OtherPolygons)
    }
}

/// Checks if polygons are the surface of the hull of a set, in any form. In a solid set they are pieces of its faces,
/// such as triangles, that close up; they may have any order and begin at any corner. In another set they have to be
/// the polygons of its hull: see `qh_model/specs/headline/Polygons.antt`.
///
/// The verdict is `Right` exactly if the polygons are a closed surface. Otherwise it names a fault: first a polygon
/// that is no piece of a face, then a step that is taken twice, then an open edge. If several polygons are no pieces,
/// it names the first. `OtherPolygons` is the fault of a solid set without any polygon, and of every set that is not solid.
///
/// It computes the hull of the set, looks up each polygon in it, and tests the plane of a polygon that is not found
/// there. So it takes little longer than the hull, whatever the fault.
///
/// # Errors
///
/// `Memory` if an allocation failed.
///
/// Source: this project's own.
pub fn check_surface(alloc: Global, claim: ClaimedPolygons) -> Result<SurfaceVerdict, Memory>
    ensures { IfOk result (λ v. IsIdSet claim.entry.pts.now claim.entry.ids.now
        → IsSurfaceVerdictOf claim.entry.pts.now claim.entry.ids.now claim.entry.polygons.now v) }
{
    if claim.polygons.is_empty() {
        return Ok(SurfaceVerdict::OtherPolygons);
    }
    match rank(claim.pts, claim.ids) {
        Shape::Solid(_, _, _, _) => check_solid_surface(alloc, claim),
        _ => compare_surface(alloc, claim),
    }
}
