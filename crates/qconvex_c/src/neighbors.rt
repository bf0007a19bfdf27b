//! The C function for the neighbours of triangles.
ghost use Rattle.std.specs.Prelude.{◌≡◌, ◌≢◌, ◌⊎◌, ◌↔◌, ◌+◌, ◌*◌, ◌/◌, ◌%◌, ◌≤◌, ◌<◌, ℕ, All, IsTrue, drop, length, slice_index};
ghost use Rattle.std.specs.List.{Sorted.IsNonDecreasing};
ghost use Rattle.qh_model.specs.declared.limits.TheConstants.{POINT_LIMIT};
ghost use Rattle.qconvex_c.specs.contract.Codes.{QCONVEX_DONE, QCONVEX_TOO_MANY, QCONVEX_RANGE, QCONVEX_MEMORY, QCONVEX_ROOM};
ghost use Rattle.qconvex_c.specs.contract.Neighbors.{AreNeighbors, sides_in};
ghost use Rattle.qconvex_c.specs.declared.side_keys.TheConstants.{SIDE_ROOM};
ghost use Rattle.qconvex_c.specs.steps.SideKeys.{AreJoined, HaveOwnEnds, IsJoined};

use crate::code::{DONE, MEMORY, NONE, RANGE, ROOM, TOO_MANY};
use crate::side_keys::{SIDE_ROOM, SideKeys};
use qh_model::POINT_LIMIT;
use std::alloc::Global;

/// Returns true if each corner is below the greatest number of points.
fn are_corners(corners: &[u32]) -> bool
    ensures { IsTrue result ↔ All (λ c. c < POINT_LIMIT) corners.now }
{
    corners.iter().all(|corner| *corner < POINT_LIMIT)
}

/// Returns the position of the first key that is not below `least`, of which those before `at` are.
fn place_of(keys: &[u64], mut at: usize, least: u64) -> usize
    requires before { (j : ℕ) → j < at → slice_index keys.now j < least }
    requires within { at ≤ length keys.now }
    ensures before { (j : ℕ) → j < result → slice_index keys.now j < least }
    ensures within { result ≤ length keys.now }
    ensures here { result < length keys.now → least ≤ slice_index keys.now result }
{
    while at < keys.len() && keys[at] < least {
        at += 1;
    }
    at
}

/// Returns the triangle of the first key with the same ends, whose position is `at` if there is one.
fn triangle_at(keys: &[u64], at: usize, key: u64) -> u32
    requires rises { IsNonDecreasing keys.now }
    requires before { (j : ℕ) → j < at → slice_index keys.now j < key / SIDE_ROOM * SIDE_ROOM }
    requires here { at < length keys.now → key / SIDE_ROOM * SIDE_ROOM ≤ slice_index keys.now at }
    ensures { IsJoined keys.now key result }
{
    if at < keys.len() && keys[at] / SIDE_ROOM == key / SIDE_ROOM {
        (keys[at] % SIDE_ROOM / 3) as u32
    } else {
        NONE
    }
}

/// Writes for the side of each key in `front` the triangle of the first key in `back` with the same ends.
fn join(front: &[u64], back: &[u64], neighbors: &mut [u32])
    requires front_rises { IsNonDecreasing front.now }
    requires back_rises { IsNonDecreasing back.now }
    requires own { HaveOwnEnds front.now }
    requires sides { All (λ key. key % SIDE_ROOM < length neighbors.old) front.now }
    ensures { AreJoined (length front.now) front.now back.now neighbors.old neighbors.new }
{
    let mut at = 0usize;
    for key in front {
        at = place_of(back, at, *key / SIDE_ROOM * SIDE_ROOM);
        neighbors[(*key % SIDE_ROOM) as usize] = triangle_at(back, at, *key);
    }
}

/// Finds the neighbours of triangles: for each side the first triangle that has the reversed side.
///
/// `triangles` has three corners for each triangle; one or two extra elements at the end are ignored. Returns `DONE` if
/// `neighbors` begins with three numbers for each triangle, of which number i is the neighbour over the side opposite to
/// corner i, or `NONE` if no triangle has this side reversed. In a surface that closes up, as that of `qconvex_fans`,
/// each side has exactly one neighbour.
///
/// Else it returns `TOO_MANY` for more than twice `POINT_LIMIT` triangles, `RANGE` for a corner that is not below
/// `POINT_LIMIT`, `ROOM` if `neighbors` is too short, or `MEMORY` if an allocation failed, and `neighbors` is unchanged.
#[unsafe(no_mangle)]
pub extern "C" fn qconvex_neighbors(alloc: Global, triangles: &[u32], neighbors: &mut [u32]) -> u32
    ensures done { result ≡ QCONVEX_DONE → AreNeighbors triangles.now neighbors.new }
    ensures many { (result ≡ QCONVEX_TOO_MANY) ↔ (2 * POINT_LIMIT < length triangles.now / 3) }
    ensures range { (result ≡ QCONVEX_RANGE)
        ↔ ((length triangles.now / 3 ≤ 2 * POINT_LIMIT) × ¬ (All (λ c. c < POINT_LIMIT) triangles.now)) }
    ensures room { (result ≡ QCONVEX_ROOM) ↔ ((length triangles.now / 3 ≤ 2 * POINT_LIMIT)
        × All (λ c. c < POINT_LIMIT) triangles.now × (length neighbors.old < sides_in triangles.now)) }
    ensures codes { (result ≡ QCONVEX_DONE) ⊎ (result ≡ QCONVEX_TOO_MANY) ⊎ (result ≡ QCONVEX_RANGE) ⊎ (result ≡ QCONVEX_ROOM)
        ⊎ (result ≡ QCONVEX_MEMORY) }
    ensures rest { result ≡ QCONVEX_DONE → drop (sides_in triangles.now) neighbors.new ≡ drop (sides_in triangles.now) neighbors.old }
    ensures kept { result ≢ QCONVEX_DONE → neighbors.new ≡ neighbors.old }
{
    let sides = triangles.len() / 3 * 3;
    if triangles.len() / 3 > 2 * POINT_LIMIT as usize {
        return TOO_MANY;
    }
    if !are_corners(triangles) {
        return RANGE;
    }
    if neighbors.len() < sides {
        return ROOM;
    }
    match SideKeys::sorted(alloc, triangles) {
        Ok(keys) => {
            let found = &mut neighbors[..sides];
            join(&keys.up, &keys.down, found);
            join(&keys.down, &keys.up, found);
            DONE
        }
        Err(_) => MEMORY,
    }
}
