//! Maps the points of a list to the equal distinct points.
//!
//! The positions are not proved: the caller compares the points.
use qh_model::{Id, Point};
use qh_polygon::{place_key, place_key_id};
use std::alloc::{AllocError, Global};

/// Returns the sorted keys of the points of some ids, and of those of a list, each with its position. Among equal
/// points, those of the list follow the others.
fn sorted_keys(
    alloc: Global,
    pts: &[Point],
    ids: &[Id],
    list: &[Point],
) -> Result<Vec<u128>, AllocError> {
    let mut keys = Vec::with_capacity(alloc, ids.len().saturating_add(list.len()))?;
    let mut number: u32 = 0;
    let own = ids.iter().filter_map(|id| pts.get(id.index()));
    for point in own.chain(list) {
        keys.push(place_key(*point, Id::new(number)))?;
        number = number.saturating_add(1);
    }
    keys.sort_unstable();
    Ok(keys)
}

/// Returns true if a list consists of the points of some ids, in their order.
fn is_list_of(pts: &[Point], ids: &[Id], list: &[Point]) -> bool {
    list.len() == ids.len()
        && ids
            .iter()
            .zip(list)
            .all(|(id, p)| pts.get(id.index()) == Some(p))
}

/// Returns for each of `list` points the position of the id of an equal point, by the sorted keys of `ids` ids and of
/// the points. A point that equals no id's point gets the position of another id.
fn positions_in(
    alloc: Global,
    keys: &[u128],
    ids: usize,
    list: usize,
) -> Result<Vec<usize>, AllocError> {
    let mut positions = vec![in alloc; 0; list]?;
    let mut position = 0;
    for key in keys {
        let number = place_key_id(*key).index();
        if number < ids {
            position = number;
        } else if let Some(entry) = positions.get_mut(number - ids) {
            *entry = position;
        }
    }
    Ok(positions)
}

/// Returns for each point of a list the position of the distinct id of an equal point, if there is one.
pub fn positions_of(
    alloc: Global,
    pts: &[Point],
    ids: &[Id],
    list: &[Point],
) -> Result<Vec<usize>, AllocError> {
    if is_list_of(pts, ids, list) {
        return (0..ids.len()).collect(alloc);
    }
    let keys = sorted_keys(alloc, pts, ids, list)?;
    positions_in(alloc, &keys, ids.len(), list.len())
}
