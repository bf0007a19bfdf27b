//! Ids in the order of a curve through their points, so that each is near the previous one.
ghost use Rattle.std.specs.Prelude.{◌≡◌, ◌<◌, ◌≤◌, IfOk, IsPermutation, length, map};
ghost use Rattle.qh_model.specs.contract.IdSets.{AreIndices};
ghost use Rattle.qh_check.specs.{declared.convex.steps.TheConstants.ROOM, steps.Hidden.id_in};

use crate::convex::steps::ROOM;
use qh_model::keys::morton_number;
use qh_model::{Id, Point};
use qh_pred::point_at;
use std::alloc::{AllocError, Global};

/// The number of cells along the curve: 2^30.
const CELLS: u64 = 1073741824;

/// Returns the number of bits of the greatest absolute value of a coordinate of some points.
fn reach(pts: &[Point], ids: &[Id]) -> u32 {
    let mut all: u32 = 0;
    for id in ids {
        if let Some(p) = pts.get(id.index()) {
            all = all | p.x().unsigned_abs() | p.y().unsigned_abs() | p.z().unsigned_abs();
        }
    }
    u32::BITS.saturating_sub(all.leading_zeros())
}

/// Returns which of 1024 slices a coordinate of this many bits lies in.
fn slice_of(coordinate: i32, bits: u32) -> u32 {
    let above = i64::from(coordinate).saturating_add(1i64.wrapping_shl(bits));
    let slice = above.unsigned_abs().wrapping_shr(bits.saturating_sub(9)) % 1024;
    slice as u32
}

/// Returns the number of a point's cell in Morton order. The highest bit is that of its slice along the third axis.
fn cell_of(p: Point, bits: u32) -> u64
    ensures { result < CELLS }
{
    let x = slice_of(p.x(), bits);
    let y = slice_of(p.y(), bits);
    let z = slice_of(p.z(), bits);
    u64::from(morton_number(z, y, x)) % CELLS
}

/// Returns the id of a key along the curve.
pub fn id_of(key: u64) -> Id
    ensures { result ≡ id_in key }
{
    Id::new((key % ROOM) as u32)
}

/// Returns the keys along the curve of some ids. A key has the cell of the point, and the id in the lowest bits.
fn listed_keys(alloc: Global, pts: &[Point], ids: &[Id]) -> Result<Vec<u64>, AllocError>
    requires indices { AreIndices pts.now ids.now }
    requires few { length pts.now ≤ ROOM }
    ensures { IfOk result (λ keys. map id_in keys.items ≡ ids.now) }
{
    let bits = reach(pts, ids);
    let mut keys = Vec::with_capacity(alloc, ids.len())?;
    for id in ids {
        keys.push(cell_of(point_at(pts, *id), bits) * ROOM + u64::from(id.number()))?;
    }
    Ok(keys)
}

/// Returns the keys along the curve of some ids, in rising order.
pub fn keys_along(alloc: Global, pts: &[Point], ids: &[Id]) -> Result<Vec<u64>, AllocError>
    requires indices { AreIndices pts.now ids.now }
    requires few { length pts.now ≤ ROOM }
    ensures { IfOk result (λ keys. IsPermutation ids.now (map id_in keys.items)) }
{
    let mut keys = listed_keys(alloc, pts, ids)?;
    keys.sort_unstable();
    Ok(keys)
}
