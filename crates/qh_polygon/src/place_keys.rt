//! One number for the place of a point and its id. The numbers are ordered by x, then y, then z, then id, so sorting
//! the numbers sorts the points, faster than sorting records.
ghost use Rattle.std.specs.Prelude.{◌≡◌, ◌+◌, ◌*◌, ◌/◌, ◌%◌, ◌<◌, IfOk, map};
ghost use Rattle.std.specs.List.{All};
ghost use Rattle.qh_model.specs.{contract.Places.IsPlace, contract.IdSets.AreIndices, headline.Limits.IsCoordinate};
ghost use Rattle.qh_polygon.specs.contract.PlaceNumbers.{biased, place_code, place_key};
ghost use Rattle.qh_polygon.specs.contract.PlaceKeys.{key_at, HasKey};

use qh_model::{COORDINATE_LIMIT, Id, Point};
use qh_pred::point_at;
use std::alloc::{AllocError, Global};

/// The number of values of a coordinate and of an id in a key of [`place_key`]: 2^32. Each is below it.
pub const ROOM: u128 = 4294967296;

/// Returns a coordinate, biased so that it is not below 0.
pub fn biased(coordinate: i32) -> u64
    requires { IsCoordinate coordinate }
    ensures value { result ≡ biased coordinate }
    ensures limit { result < ROOM }
{
    (i64::from(coordinate) + i64::from(COORDINATE_LIMIT)) as u64
}

/// Returns the number of a place, which orders points by x, then y, then z.
#[tactic(auto, unfolding(crate::specs::contract::PlaceNumbers::place_code))]
fn place_code(point: Point) -> u128
    ensures value { result ≡ place_code point }
    ensures limit { result < ROOM * ROOM * ROOM }
    ensures place { IsPlace point }
{
    let line = u128::from(biased(point.x())) * ROOM + u128::from(biased(point.y()));
    line * ROOM + u128::from(biased(point.z()))
}

/// Returns the key of a point and an id. Keys are ordered by the place, and then by the id.
#[tactic(auto, unfolding(crate::specs::contract::PlaceNumbers::place_key))]
pub fn place_key(point: Point, id: Id) -> u128
    ensures value { result ≡ place_key point id }
    ensures place { IsPlace point }
    ensures small { id < ROOM }
{
    place_code(point) * ROOM + u128::from(id.number())
}

/// Returns the number of the place in a key.
pub fn place_in(key: u128) -> u128
    ensures { result ≡ key / ROOM }
{
    key / ROOM
}

/// Returns the id in a key of [`place_key`].
pub fn place_key_id(key: u128) -> Id
    ensures { result ≡ key % ROOM }
{
    Id::new((key % ROOM) as u32)
}

/// Returns the keys of points, in the order of their ids in the list.
///
/// # Errors
///
/// `AllocError` if an allocation failed.
pub fn point_keys(alloc: Global, pts: &[Point], ids: &[Id]) -> Result<Vec<u128>, AllocError>
    requires { AreIndices pts.now ids.now }
    ensures value { IfOk result (λ v. v.items ≡ map (key_at pts.now) ids.now) }
    ensures known { IfOk result (λ _. All (HasKey pts.now) ids.now) }
{
    let mut keys = Vec::with_capacity(alloc, ids.len())?;
    for id in ids {
        keys.push(place_key(point_at(pts, *id), *id))?;
    }
    Ok(keys)
}
