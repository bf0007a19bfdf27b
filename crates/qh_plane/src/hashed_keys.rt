//! One number of 64 bits for a point and its id: a hash of the place in the upper bits, and the id in the lower ones.
//! It is half as wide as a key that contains the place. Sorting these keys also brings equal points together, the
//! lowest id first.
//!
//! Equal points have equal hashes. Different points rarely have; if they do, some are adjacent among the sorted keys,
//! and they are distinguished as long as they are the first two of that hash.
ghost use Rattle.std.specs.Prelude.{◌≡◌, ◌<◌, ◌≤◌, ◌+◌, ◌*◌, ◌/◌, ◌%◌, ◌↔◌, IfOk, IsTrue, length};
ghost use Rattle.qh_plane.specs.steps.HashedKeys.{place_number, place_hash, AllHashes, AreKeysBelow, IsRepeat};

use crate::close_points::same_point;
use qh_model::{Id, POINT_LIMIT, Point};
use qh_polygon::biased;
use qh_pred::point_at;
use std::alloc::{AllocError, Global};

/// Points whose coordinates have at most this magnitude have unique numbers: the third power of `SPREAD` is below 2^64.
const NEAR: u64 = 1048576;

/// The number of values of a coordinate in a number.
pub const SPREAD: u64 = 2 * NEAR + 1;

/// This odd factor spreads numbers that lie near each other: 2^64 divided by the golden ratio.
pub const MIXER: u64 = 11400714819323198485;

/// The number of values of an id in a key.
pub const ID_ROOM: u64 = POINT_LIMIT as u64;

/// A hash that no place has: the hashes of all places are lower.
pub const NO_HASH: u64 = u64::MAX / ID_ROOM + 1;

/// Returns the number of a place.
pub fn place_number(point: Point) -> u64
    ensures { result ≡ place_number point }
{
    let line = biased(point.x()) * SPREAD + biased(point.y());
    line.wrapping_mul(SPREAD).wrapping_add(biased(point.z()))
}

/// Returns the hash of a place: the upper bits of a product.
#[tactic(auto, unfolding(crate::specs::steps::HashedKeys::place_hash))]
pub fn place_hash(point: Point) -> u64
    ensures value { result ≡ place_hash point }
    ensures limit { result < NO_HASH }
{
    place_number(point).wrapping_mul(MIXER) / ID_ROOM
}

/// Returns the key of a hash and an id.
pub fn key_of(hash: u64, id: u64) -> u64
    requires hash { hash < NO_HASH }
    requires id { id < ID_ROOM }
    ensures { result ≡ hash * ID_ROOM + id }
{
    hash * ID_ROOM + id
}

/// Returns the hash in a key.
pub fn hash_in(key: u64) -> u64
    ensures { result ≡ key / ID_ROOM }
{
    key / ID_ROOM
}

/// Returns the id in a key.
pub fn id_in(key: u64) -> Id
    ensures { result ≡ key % ID_ROOM }
{
    Id::new((key % ID_ROOM) as u32)
}

/// Returns the keys of all points, in the order of their ids.
pub fn hashed_keys(alloc: Global, pts: &[Point]) -> Result<Vec<u64>, AllocError>
    requires { length pts.now ≤ POINT_LIMIT }
    ensures { IfOk result (λ v. AreKeysBelow pts.now AllHashes (length pts.now) v.items) }
{
    let mut keys = Vec::with_capacity(alloc, pts.len())?;
    for number in 0..pts.len() {
        keys.push(key_of(place_hash(pts[number]), number as u64))?;
    }
    Ok(keys)
}

/// Returns true if two keys have equal hashes and equal points.
pub fn is_repeat(pts: &[Point], before: u64, key: u64) -> bool
    requires before { before % ID_ROOM < length pts.now }
    requires key { key % ID_ROOM < length pts.now }
    ensures { IsTrue result ↔ IsRepeat pts.now before key }
{
    hash_in(before) == hash_in(key)
        && same_point(point_at(pts, id_in(before)), point_at(pts, id_in(key)))
}
