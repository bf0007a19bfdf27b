//! A set by positions: its points in a list of their own, next to each other.
//!
//! The points of a part of a long list lie far apart in memory. Gathered points are read faster, and a mark for each
//! position takes little memory.
ghost use Rattle.std.specs.{Prelude.◌≡◌, Prelude.IfOk, Prelude.map, List.range_with_len};
ghost use Rattle.qh_mesh.specs.contract.Names.{name_in};

use qh_model::{Id, Memory};
use std::alloc::{AllocError, Global};

/// Returns the positions below a count, rising.
///
/// Returns `Err` if an allocation failed, or if the count exceeds the numbers of ids.
pub fn positions_below(alloc: Global, count: usize) -> Result<Vec<Id>, Memory>
    ensures { IfOk result (λ v. v.items ≡ range_with_len 0 count) }
{
    let Ok(end) = u32::try_from(count) else {
        return Err(Memory);
    };
    Ok((0..end).map(|number| Id::new(number)).collect(alloc)?)
}

/// Returns the id at a position, or the position itself if it is past the end of the list.
fn id_at(ids: &[Id], position: Id) -> Id
    ensures { result ≡ name_in ids.now position }
{
    match ids.get(position.index()) {
        Some(id) => *id,
        None => position,
    }
}

/// Returns the ids at positions, in the order of the positions.
pub fn ids_at(alloc: Global, ids: &[Id], positions: &[Id]) -> Result<Vec<Id>, AllocError>
    ensures { IfOk result (λ v. v.items ≡ map (name_in ids.now) positions.now) }
{
    let mut found = Vec::with_capacity(alloc, positions.len())?;
    for position in positions {
        found.push(id_at(ids, *position))?;
    }
    Ok(found)
}
