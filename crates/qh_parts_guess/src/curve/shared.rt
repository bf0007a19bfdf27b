//! The ids that belong to every part of a set.
ghost use Rattle.qh_model.specs.contract.IdSets.{AreIndices};

use qh_model::{Id, Memory, Point};
use qh_polygon::{Shape, rank};
use qh_surface::starts::{Simplex, ends_of, wide_simplex};
use std::alloc::Global;

/// Returns the ids that belong to every part of a set: first four that are far apart and do not lie in one plane, then
/// the ends of the set along the three axes, without repetition. Returns `None` if all points lie in one plane.
///
/// # Errors
///
/// `Memory` if an allocation failed.
#[tactic(auto, using(qh_surface::proofs::runs::FirstSimplexes::simplex_is))]
pub fn shared_ids(alloc: Global, pts: &[Point], ids: &[Id]) -> Result<Option<Vec<Id>>, Memory>
    requires { AreIndices pts.now ids.now }
{
    if ids.is_empty() {
        return Ok(None);
    }
    let Shape::Solid(i, j, k, l) = rank(pts, ids) else {
        return Ok(None);
    };
    let ends = ends_of(pts, ids);
    let four = wide_simplex(pts, ids, &ends, Simplex { i, j, k, l });
    let mut shared = Vec::from_slice(alloc, &[four.i, four.j, four.k, four.l])?;
    for end in ends {
        if !shared.contains(&end) {
            shared.push(end)?;
        }
    }
    Ok(Some(shared))
}
