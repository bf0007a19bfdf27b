//! The number of edges of polygons.
ghost use Rattle.std.specs.Prelude.{◌≡◌, ◌≤◌, ◌+◌, IfOk, length, map};
ghost use Rattle.qh_bodies.specs.{contract.SolidEdges.ups, contract.SolidEdges.all_edges_up, steps.FaceKeys.triangle_in};

use crate::face_keys::triangle_in;
use qh_model::{Id, Memory, Polygon};

/// Returns the number of steps to a higher id round a polygon.
fn edges_up(ids: &[Id]) -> usize
    ensures count { result ≡ length (ups ids.now) }
    ensures limit { result ≤ length ids.now }
{
    let [first, rest @ ..] = ids else {
        return 0;
    };
    let mut from = *first;
    let mut count = 0;
    for id in rest {
        if from < *id {
            count += 1;
        }
        from = *id;
    }
    if from < *first {
        count += 1;
    }
    count
}

/// Returns the sum of two numbers of steps.
fn sum_of(first: u64, second: u64) -> Result<u64, Memory>
    ensures { IfOk result (λ n. n ≡ first + second) }
{
    // An overflow would need more ids than fit into memory.
    first.checked_add(second).ok_or(Memory)
}

/// Returns the number of steps to a higher id round polygons.
pub fn edges_of(polygons: &[Polygon]) -> Result<u64, Memory>
    ensures { IfOk result (λ n. n ≡ all_edges_up polygons.now) }
{
    let mut count = 0;
    for polygon in polygons {
        count = sum_of(count, edges_up(polygon.ids()) as u64)?;
    }
    Ok(count)
}

/// Returns the number of steps to a higher id round the triangles of keys, and `more`. With those round the other faces
/// of a solid it is the number of its edges, since two faces run along each edge in opposite directions.
pub fn edges_with(keys: &[u64], more: u64) -> Result<u64, Memory>
    ensures { IfOk result (λ n. n ≡ all_edges_up (map triangle_in keys.now) + more) }
{
    let mut count = 0;
    for key in keys {
        count = sum_of(count, edges_up(triangle_in(*key).ids()) as u64)?;
    }
    sum_of(count, more)
}
