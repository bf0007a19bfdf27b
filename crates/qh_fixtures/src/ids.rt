//! Ids and their numbers.
ghost use Rattle.std.specs.Prelude.{IfOk};
ghost use Rattle.qh_model.specs.contract.IdSets.{AreIndices};

use qh_model::{Id, Memory, Point};
use std::alloc::Global;

/// The numbers of eight points.
pub const EIGHT: [u32; 8] = [0, 1, 2, 3, 4, 5, 6, 7];

/// Returns true if the ids have these numbers, in this order.
pub fn are(ids: &[Id], numbers: &[u32]) -> bool {
    ids.len() == numbers.len()
        && ids
            .iter()
            .zip(numbers)
            .all(|(id, number)| id.number() == *number)
}

/// Returns the ids of those numbers that are indices of the points, in the order of the numbers.
///
/// # Errors
///
/// `Memory` if an allocation fails.
pub fn ids_of(alloc: Global, pts: &[Point], numbers: &[u32]) -> Result<Vec<Id>, Memory>
    ensures { IfOk result (λ v. AreIndices pts.now v.items) }
{
    let mut ids = Vec::new(alloc);
    for number in numbers {
        if (*number as usize) < pts.len() {
            ids.push(Id::new(*number))?;
        }
    }
    Ok(ids)
}
