//! A hull as lists of numbers, in the layout of the caller's buffers.
ghost use Rattle.std.specs.Prelude.{◌≡◌, ◌++◌, IfOk, OnOk, List};
ghost use Rattle.qh_model.specs.headline.{Hull.IsHull, Vector.Vector};
ghost use Rattle.qconvex_c.specs.contract.Flat.{IsFlatHull, corners_of, offsets_of};

use crate::sizes::Sizes;
use qh_model::{Hull, Id, Memory, Polygon};
use std::alloc::{AllocError, Global};

/// A hull in flat lists.
#[derive(Drop)]
pub struct FlatHull {
    pub sizes: Sizes,
    pub extremes: Vec<u32>,
    pub offsets: Vec<usize>,
    pub corners: Vec<u32>,
}

/// Appends the numbers of ids.
fn push_numbers(numbers: &mut Vec<u32>, ids: &[Id]) -> Result<(), AllocError>
    ensures { OnOk result (numbers.new.items ≡ numbers.old.items ++ ids.now) }
{
    for id in ids {
        numbers.push(id.number())?;
    }
    Ok(())
}

/// Returns the numbers of ids.
fn numbers_of(alloc: Global, ids: &[Id]) -> Result<Vec<u32>, AllocError>
    ensures { IfOk result (λ v. v.items ≡ ids.now) }
{
    let mut numbers = Vec::with_capacity(alloc, ids.len())?;
    push_numbers(&mut numbers, ids)?;
    Ok(numbers)
}

/// Returns the corners of faces, one face after the other, and the offsets at which each face begins and ends.
fn faces_of(alloc: Global, faces: &[Polygon]) -> Result<(Vec<u32>, Vec<usize>), AllocError>
    ensures corners { IfOk result (λ f. f.0.items ≡ corners_of faces.now) }
    ensures offsets { IfOk result (λ f. f.1.items ≡ offsets_of faces.now) }
{
    let mut corners = Vec::with_capacity(alloc, faces.len().saturating_mul(3))?;
    let mut offsets = Vec::with_capacity(alloc, faces.len().saturating_add(1))?;
    offsets.push(0usize)?;
    for face in faces {
        push_numbers(&mut corners, face.ids())?;
        offsets.push(corners.len())?;
    }
    Ok((corners, offsets))
}

/// Returns the hull in flat lists.
///
/// # Errors
///
/// `Memory` if an allocation failed.
pub fn flat_hull(alloc: Global, hull: &Hull) -> Result<FlatHull, Memory>
    ensures { IfOk result (λ f. (pts : List Vector) → IsHull pts hull.now → IsFlatHull pts f.sizes f.extremes.items f.offsets.items f.corners.items) }
{
    let extremes = numbers_of(alloc, &hull.body.extremes)?;
    let (corners, offsets) = faces_of(alloc, &hull.body.polygons)?;
    let sizes = Sizes {
        points: hull.given,
        distinct: hull.distinct,
        dimension: u32::from(hull.body.dim),
        extremes: extremes.len(),
        faces: hull.body.polygons.len(),
        corners: corners.len(),
        edges: hull.body.edges,
    };
    Ok(FlatHull {
        sizes,
        extremes,
        offsets,
        corners,
    })
}
