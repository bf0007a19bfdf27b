//! The finished mesh of a solid set, and the hull from it.
ghost use Rattle.std.specs.Prelude.{ℕ, List, IfOk};
ghost use Rattle.qh_model.specs.contract.{IdSets.IsIdSet, FinishedSurface.IsFinished, StoredSurface.surface_of};
ghost use Rattle.qh_model.specs.headline.{Hull.AreExtremes, Hull.IsBody, Predicates.place, Sets.Once, Sets.Members};
ghost use Rattle.qh_polygon.specs.contract.Shapes.{IsInLine, IsInPlane, IsFirstNot, AreFirstTwo};
ghost use Rattle.qh_surface.specs.contract.NamedMeshes.{named, IsNamedMesh};

use crate::faces::faces;
use crate::regions::IdSet;
use qh_bodies::body_of_faces;
use qh_model::{Body, Id, Memory, Point};
use qh_surface::starts::Simplex;
use qh_surface::{NamedMesh, surface_from};
use std::alloc::Global;

/// Returns the finished mesh of a set. `first` has the first two ids, the first id off their line, and the first id off
/// their plane.
pub(crate) fn solid_mesh(alloc: Global, set: IdSet, first: Simplex) -> Result<NamedMesh, Memory>
    requires two { AreFirstTwo set.ids.now first.i first.j }
    requires off_line { IsFirstNot (IsInLine set.pts.now first.i first.j) set.ids.now first.k }
    requires off_plane { IsFirstNot (IsInPlane set.pts.now first.i first.j first.k) set.ids.now first.l }
    ensures finished { let pts = set.entry.pts.now in let ids = set.entry.ids.now in
        IfOk result (λ m. Once ids → IsFinished (place pts) ids (surface_of (named m))) }
    ensures named { IfOk result (λ m. IsNamedMesh set.entry.pts.now m) }
{
    surface_from(alloc, set.pts, set.ids, first)
}

/// Returns the extreme ids of a set with a finished mesh, rising: the members of its faces.
pub fn solid_extremes(alloc: Global, pts: &[Point], surface: &NamedMesh) -> Result<Vec<Id>, Memory>
    requires { IsNamedMesh pts.now surface.now }
    ensures { IfOk result (λ v. (ids : List ℕ) → IsIdSet pts.now ids → IsFinished (place pts.now) ids (surface_of (named surface.now))
        → AreExtremes (place pts.now) (Members ids) v.items) }
{
    let faces = faces(alloc, pts, surface)?;
    Ok(faces.tally(alloc)?.extremes)
}

/// Returns the hull of a set with a finished mesh.
pub fn solid_body(alloc: Global, pts: &[Point], surface: &NamedMesh) -> Result<Body, Memory>
    requires { IsNamedMesh pts.now surface.now }
    ensures { IfOk result (λ b. (ids : List ℕ) → IsIdSet pts.now ids → IsFinished (place pts.now) ids (surface_of (named surface.now))
        → IsBody (place pts.now) (Members ids) b) }
{
    let faces = faces(alloc, pts, surface)?;
    let tally = faces.tally(alloc)?;
    let polygons = faces.sorted(alloc)?;
    Ok(body_of_faces(polygons, tally))
}
