//! Finds the points that may be equal to an earlier one with a table of slots.
//!
//! A hash determines the slot of a point, so equal points fall into one slot. If a table has several slots for each
//! point, most points are alone in their slots. Only the keys of the others have to be sorted.
ghost use Rattle.std.specs.Prelude.{◌≡◌, ◌≤◌, ◌<◌, ◌*◌, ◌↔◌, IfOk, IsTrue, length};
ghost use Rattle.qh_plane.specs.steps.{HashedKeys.AreKeysBelow, SharedSlots.slot_in, SharedSlots.IsTable, SharedSlots.MarkedHashes, SharedSlots.AreShared};

use crate::hashed_keys::{ID_ROOM, NO_HASH, key_of, place_hash};
use qh_model::{POINT_LIMIT, Point};
use std::alloc::{AllocError, Global};

/// The number of slots of a table for each point. About one in five of different points falls into the slot of another.
pub const SLOTS_FOR_EACH: usize = 4;

/// Returns the slot of a hash in a table of `slots` slots.
fn slot_of(hash: u64, slots: usize) -> usize
    requires hash { hash < NO_HASH }
    requires some { 0 < slots }
    requires few { slots ≤ ID_ROOM }
    ensures value { result ≡ slot_in slots hash }
    ensures limit { result < slots }
{
    (hash * slots as u64 / NO_HASH) as usize
}

/// Marks the slots that contain more than one point.
pub fn shared_slots(alloc: Global, pts: &[Point]) -> Result<Vec<bool>, AllocError>
    requires some { 0 < length pts.now }
    requires few { length pts.now * SLOTS_FOR_EACH ≤ ID_ROOM }
    ensures table { IfOk result (λ v. IsTable v.items) }
    ensures shared { IfOk result (λ v. AreShared pts.now (length pts.now) v.items) }
{
    let slots = pts.len() * SLOTS_FOR_EACH;
    let mut taken = vec![in alloc; false; slots]?;
    let mut shared = vec![in alloc; false; slots]?;
    for point in pts {
        let slot = slot_of(place_hash(*point), slots);
        let is_shared = shared[slot] | taken[slot];
        shared[slot] = is_shared;
        taken[slot] = true;
    }
    Ok(shared)
}

/// Returns true if the slot of a hash is marked.
fn is_marked(marks: &[bool], hash: u64) -> bool
    requires hash { hash < NO_HASH }
    requires table { IsTable marks.now }
    ensures { IsTrue result ↔ MarkedHashes marks.now hash }
{
    marks[slot_of(hash, marks.len())]
}

/// Returns the keys of the points whose slots are marked, in the order of their ids.
pub fn keys_in_slots(alloc: Global, pts: &[Point], marks: &[bool]) -> Result<Vec<u64>, AllocError>
    requires few { length pts.now ≤ POINT_LIMIT }
    requires table { IsTable marks.now }
    ensures { IfOk result (λ v. AreKeysBelow pts.now (MarkedHashes marks.now) (length pts.now) v.items) }
{
    let mut keys = Vec::new(alloc);
    for number in 0..pts.len() {
        let hash = place_hash(pts[number]);
        if is_marked(marks, hash) {
            keys.push(key_of(hash, number as u64))?;
        }
    }
    Ok(keys)
}
