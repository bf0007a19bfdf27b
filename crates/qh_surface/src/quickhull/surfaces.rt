//! The surface of a solid set.
ghost use Rattle.std.specs.Prelude.{◌≡◌, ℕ, IfOk, length, map};
ghost use Rattle.std.specs.List.{range_with_len};
ghost use Rattle.qh_model.specs.contract.{IdSets.IsIdSet, IdSets.AreIndices, FinishedSurface.IsFinished};
ghost use Rattle.qh_model.specs.contract.StoredSurface.{facet_at, surface_of};
ghost use Rattle.qh_model.specs.headline.{Predicates.place, Sets.Members, Sets.Once, Dimension.IsDimension};
ghost use Rattle.qh_model.specs.headline.SupportingPlane.{IsSupportingTriple};
ghost use Rattle.qh_mesh.specs.contract.{Replacement.IsLive, SoundMesh.IsClosedMesh};
ghost use Rattle.qh_surface.specs.contract.{NamedMeshes.named, NamedMeshes.IsNamedMesh, Simplexes.IsSimplexOf};
ghost use Rattle.qh_surface.specs.steps.Positions.{IsPositionOf, ArePositionsOf};

use crate::named_mesh::NamedMesh;
use crate::quickhull::run::QuickhullRun;
use crate::starts::{Simplex, ends_of, morton_order, points_of, wide_simplex};
use qh_mesh::Mesh;
use qh_model::{Id, Memory, Point};
use qh_polygon::{Shape, rank};
use std::alloc::Global;

/// The least number of ids that a run processes in Morton order, which keeps near points together.
const LARGE: usize = 16384;

/// Returns the position of an id in a list that has it.
///
/// Returns `Err` if positions exceed numbers of 32 bits.
fn position_of(ids: &[Id], id: Id) -> Result<Id, Memory>
    requires { Members ids.now id }
    ensures { IfOk result (λ p. IsPositionOf ids.now id p) }
{
    let Some(position) = ids.iter().position(|listed| *listed == id) else {
        unreachable!();
    };
    match u32::try_from(position) {
        Ok(position) => Ok(Id::new(position)),
        Err(_) => Err(Memory),
    }
}

/// Returns the positions of an initial simplex in a list that has its corners.
fn positions_of(ids: &[Id], first: Simplex) -> Result<Simplex, Memory>
    requires i { Members ids.now first.i }
    requires j { Members ids.now first.j }
    requires k { Members ids.now first.k }
    requires l { Members ids.now first.l }
    ensures { IfOk result (λ s. ArePositionsOf ids.now first s) }
{
    Ok(Simplex {
        i: position_of(ids, first.i)?,
        j: position_of(ids, first.j)?,
        k: position_of(ids, first.k)?,
        l: position_of(ids, first.l)?,
    })
}

/// Returns a finished run over the points of ids. The corners of its surface are positions of the ids.
pub(super) fn run_over(
    alloc: Global,
    pts: &[Point],
    ids: &[Id],
    first: Simplex,
) -> Result<QuickhullRun, Memory>
    requires indices { AreIndices pts.now ids.now }
    requires first { IsSimplexOf pts.now ids.now first }
    ensures finished { IfOk result (λ r.
        IsFinished (place (map (place pts.now) ids.now)) (range_with_len 0 (length ids.now)) (surface_of r.mesh)) }
    ensures points { IfOk result (λ r. r.points.items ≡ map (place pts.now) ids.now) }
{
    let points = points_of(alloc, pts, ids)?;
    let first = positions_of(ids, first)?;
    let mut run = QuickhullRun::start(alloc, points, first)?;
    run.finish(alloc)?;
    Ok(run)
}

/// Returns the surface of a set by a run over its ids in their order, from an initial simplex, as [`surface_from`]
/// does. It is faster if near ids are near each other in the list.
///
/// # Errors
///
/// `Memory` if an allocation failed.
pub fn surface_along(
    alloc: Global,
    pts: &[Point],
    ids: Vec<Id>,
    first: Simplex,
) -> Result<NamedMesh, Memory>
    requires indices { AreIndices pts.now ids.items }
    requires first { IsSimplexOf pts.now ids.items first }
    ensures finished { IfOk result (λ m. Once ids.items → IsFinished (place pts.now) ids.items (surface_of (named m))) }
    ensures named { IfOk result (λ m. IsNamedMesh pts.now m) }
{
    let run = run_over(alloc, pts, &ids, first)?;
    Ok(NamedMesh {
        mesh: run.mesh,
        points: run.points,
        ids,
    })
}

/// Returns the surface of a set from an initial simplex: four of its ids whose points are not in one plane. The corners
/// of its triangles are positions of the ids. The triangles have no specified order.
///
/// `ids` are indices of points, each once. If an id occurs twice, the contract states only that the corners are
/// positions.
///
/// # Errors
///
/// `Memory` if an allocation failed.
pub fn surface_from(
    alloc: Global,
    pts: &[Point],
    ids: &[Id],
    first: Simplex,
) -> Result<NamedMesh, Memory>
    requires indices { AreIndices pts.now ids.now }
    requires first { IsSimplexOf pts.now ids.now first }
    ensures finished { IfOk result (λ m. Once ids.now → IsFinished (place pts.now) ids.now (surface_of (named m))) }
    ensures named { IfOk result (λ m. IsNamedMesh pts.now m) }
{
    let ends = ends_of(pts, ids);
    let far = wide_simplex(pts, ids, &ends, first);
    if ids.len() < LARGE {
        return surface_along(alloc, pts, Vec::from_slice(alloc, ids)?, far);
    }
    let near = morton_order(alloc, pts, ids, &ends)?;
    surface_along(alloc, pts, near, far)
}

/// Returns the surface of the hull of a set of dimension 3, by Quickhull: a closed surface of triangles over the ids,
/// each counterclockwise seen from outside. No triangle strictly sees a point of the set. So the corners of each
/// triangle are a supporting triple of the set, and each extreme id is a corner.
///
/// `ids` rise, have distinct points, and each is the index of one of the points. It is not specified how a face is
/// divided into triangles. A corner need not be an extreme id: it may lie within an edge or a face.
///
/// # Errors
///
/// `Memory` if an allocation failed.
///
/// Source: Barber, Dobkin and Huhdanpaa 1996.
#[tactic(auto, using(crate::proofs::runs::FirstSimplexes::simplex_is))]
pub fn surface(alloc: Global, pts: &[Point], ids: &[Id]) -> Result<Mesh, Memory>
    requires indices { AreIndices pts.now ids.now }
    requires set { IsIdSet pts.now ids.now }
    requires solid { IsDimension (place pts.now) (Members ids.now) 3 }
    ensures finished { IfOk result (λ m. IsFinished (place pts.now) ids.now (surface_of m)) }
    ensures closed { IfOk result (λ m. IsClosedMesh (place pts.now) m) }
    ensures supporting { IfOk result (λ m. (f : ℕ) → IsLive m f
        → IsSupportingTriple (place pts.now) (Members ids.now) (facet_at m f).i (facet_at m f).j (facet_at m f).k) }
{
    let Shape::Solid(i, j, k, l) = rank(pts, ids) else {
        unreachable!();
    };
    let surface = surface_from(alloc, pts, ids, Simplex { i, j, k, l })?;
    Ok(surface.renamed())
}
