//! Finds points that are equal to an earlier one by sorted keys of 64 bits.
ghost use Rattle.std.specs.{List.All, Prelude.◌≤◌, Prelude.◌<◌, Prelude.◌%◌, Prelude.IfOk, Prelude.IfSome, Prelude.length};
ghost use Rattle.qh_plane.specs.steps.{HashedKeys.RepeatsTold, Repeats.AreAllRepeats};

use crate::found_ids::FoundIds;
use crate::hashed_keys::{ID_ROOM, hash_in, hashed_keys, id_in, is_repeat};
use crate::shared_slots::{keys_in_slots, shared_slots};
use qh_model::{POINT_LIMIT, Point};
use rayon::slice::par_sort_unstable;
use std::alloc::Global;
use std::thread::Threads;

/// The least number of points for which a table saves time, if few of them share a slot.
const TABLE_FROM: usize = 64;

/// The table of more points exceeds the cache of one processor, and sorting is as fast.
const TABLE_TO: usize = 65_536;

/// Returns the ids of the keys that repeat the key before, for rising keys; `None` if one hash has different points
/// after its first two keys.
///
/// So among the keys of one hash, only the first two may have different points.
pub fn repeats_told(alloc: Global, pts: &[Point], keys: &[u64]) -> FoundIds
    requires { All (λ k. k % ID_ROOM < length pts.now) keys.now }
    ensures { IfOk result (λ found. IfSome found (λ v. RepeatsTold pts.now keys.now (length keys.now) v.items)) }
{
    let mut repeats = Vec::new(alloc);
    for j in 1..keys.len() {
        if is_repeat(pts, keys[j - 1], keys[j]) {
            repeats.push(id_in(keys[j]))?;
        } else if 2 <= j && hash_in(keys[j - 2]) == hash_in(keys[j]) {
            return Ok(None);
        }
    }
    Ok(Some(repeats))
}

/// Returns the ids of all points that are equal to an earlier one, by sorting the keys that share a slot of a table;
/// `None` if too many have one hash.
fn repeats_in_slots(alloc: Global, pts: &[Point]) -> FoundIds
    requires some { 0 < length pts.now }
    requires few { length pts.now ≤ TABLE_TO }
    ensures { IfOk result (λ found. IfSome found (λ v. AreAllRepeats pts.now v.items)) }
{
    let shared = shared_slots(alloc, pts)?;
    let mut keys = keys_in_slots(alloc, pts, &shared)?;
    keys.sort_unstable();
    repeats_told(alloc, pts, &keys)
}

/// Returns the ids of all points that are equal to an earlier one; `None` if too many have one hash.
pub fn repeats_of_all(alloc: Global, pts: &[Point]) -> FoundIds
    requires { length pts.now ≤ POINT_LIMIT }
    ensures { IfOk result (λ found. IfSome found (λ v. AreAllRepeats pts.now v.items)) }
{
    let count = pts.len();
    if TABLE_FROM <= count && count <= TABLE_TO {
        return repeats_in_slots(alloc, pts);
    }
    let mut keys = hashed_keys(alloc, pts)?;
    keys.sort_unstable();
    repeats_told(alloc, pts, &keys)
}

/// Returns the ids of all points that are equal to an earlier one, by sorting all keys with the threads of a runtime;
/// `None` if too many have one hash.
pub fn repeats_by_sort<R: Threads + Sync>(rt: &R, alloc: Global, pts: &[Point]) -> FoundIds
    requires { length pts.now ≤ POINT_LIMIT }
    ensures { IfOk result (λ found. IfSome found (λ v. AreAllRepeats pts.now v.items)) }
{
    let mut keys = hashed_keys(alloc, pts)?;
    par_sort_unstable(rt, &mut keys);
    repeats_told(alloc, pts, &keys)
}
