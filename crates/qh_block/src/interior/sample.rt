//! The planes of the hull of a sample of a set.
ghost use Rattle.std.specs.Prelude.{◌≡◌, ◌*◌, ◌<◌, ℕ, slice_index, IfOk, IfSome, IsTrue, length};
ghost use Rattle.std.specs.List.Sorted.{IsStrictlyIncreasing};
ghost use Rattle.qh_block.specs.steps.InnerPoints.{HasPlanes, AreInner};
ghost use Rattle.qh_surface.specs.contract.Corners.{AreCornersBelow};

use crate::interior::rules::{finer_by, sample_pays};
use crate::regions::{CoarsePlane, Columns, IdSet, Sieve};
use qh_mesh::Mesh;
use qh_model::{Id, Memory, Point};
use qh_polygon::{Shape, rank};
use qh_surface::starts::Simplex;
use qh_surface::{plane_of, surface_from};
use std::alloc::{AllocError, Global};

/// Returns every `many`-th id, beginning with the first.
pub fn one_of(alloc: Global, ids: &[Id], many: usize) -> Result<Vec<Id>, AllocError>
    requires some { 0 < length ids.now }
    requires many { 0 < many }
    ensures some { IfOk result (λ v. 0 < length v.items) }
    ensures inside { IfOk result (λ v. (k : ℕ) → k < length v.items → k * many < length ids.now) }
    ensures each { IfOk result (λ v. (k : ℕ) → k < length v.items → slice_index v.items k ≡ slice_index ids.now (k * many)) }
{
    ids.chunks(many).map(|part| part[0]).collect(alloc)
}

/// Returns coarse planes below those of the live facets.
fn planes_of(alloc: Global, pts: &[Point], mesh: &Mesh) -> Result<Vec<CoarsePlane>, AllocError>
    requires corners { AreCornersBelow (length pts.now) mesh.now }
    ensures { IfOk result (λ v. HasPlanes pts.now mesh.now v.items) }
{
    let mut planes = Vec::new(alloc);
    for facet in mesh.live() {
        planes.push(CoarsePlane::under(&plane_of(pts, mesh, facet)))?;
    }
    Ok(planes)
}

/// Returns true if each id is above the one before.
fn rise(ids: &[Id]) -> bool
    ensures { IsTrue result → IsStrictlyIncreasing ids.now }
{
    for at in 1..ids.len() {
        if ids[at - 1] >= ids[at] {
            return false;
        }
    }
    true
}

/// Returns the columns inside the hull of a sample, 2 to a power along each axis, with cells made by a sieve. Returns
/// `None` if the sample lies in a plane or does not rise, or if it has more facets than `sample_pays` allows.
pub fn inner_columns<S: Sieve>(
    sieve: &S,
    alloc: Global,
    sample: IdSet,
    side_bits: u32,
) -> Result<Option<Columns>, Memory>
    requires some { 0 < length sample.ids.now }
    requires ready { S.ready sieve.now }
    ensures { IfOk result (λ found. IfSome found (AreInner sample.entry.pts.now sample.entry.ids.now)) }
{
    let Shape::Solid(i, j, k, l) = rank(sample.pts, sample.ids) else {
        return Ok(None);
    };
    if !rise(sample.ids) {
        return Ok(None);
    }
    let surface = surface_from(alloc, sample.pts, sample.ids, Simplex { i, j, k, l })?;
    let mesh = surface.renamed();
    let planes = planes_of(alloc, sample.pts, &mesh)?;
    if !sample_pays(planes.len(), sample.ids.len()) {
        return Ok(None);
    }
    let bits = side_bits.saturating_add(finer_by(planes.len(), sample.ids.len()));
    Ok(Some(Columns::between(sieve, alloc, planes, sample, bits)?))
}
