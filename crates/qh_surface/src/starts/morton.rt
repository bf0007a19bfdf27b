//! An order of ids in which near points are near each other.
//!
//! A run reads the points of a facet one after the other, and then those of its neighbours. If they are also near in
//! memory, a large run seldom waits for memory. No answer depends on the order.
ghost use Rattle.std.specs.Prelude.{◌≡◌, IfOk, map, IsPermutation};
ghost use Rattle.qh_model.specs.contract.{IdSets.AreIndices, Halves.low_of};

use qh_model::keys::{Packed, morton_number};
use qh_model::{Id, Memory, Point};
use qh_pred::point_at;
use std::alloc::{AllocError, Global};

/// The bits of a cell's place along one axis. Three of them fit a cell's number.
const PLACE_BITS: u32 = 10;

/// The cells of a cube around points: its corner of the least coordinates, and the number of lowest bits of a
/// coordinate that do not affect the cell.
#[derive(Clone, Copy, Drop)]
struct Cells {
    least: Point,
    width_bits: u32,
}

impl Cells {
    /// Returns the cells around a set, from its ends.
    fn around(pts: &[Point], ends: &[Id; 6]) -> Cells
        requires { AreIndices pts.now ends.now }
    {
        let [west, east, south, north, bottom, top] = *ends;
        let (west, east) = (point_at(pts, west).x(), point_at(pts, east).x());
        let (south, north) = (point_at(pts, south).y(), point_at(pts, north).y());
        let (bottom, top) = (point_at(pts, bottom).z(), point_at(pts, top).z());
        let breadth = east.abs_diff(west).max(north.abs_diff(south));
        let extent = breadth.max(top.abs_diff(bottom));
        let bits = u32::BITS - extent.leading_zeros();
        Cells {
            least: Point::new(west, south, bottom),
            width_bits: bits.saturating_sub(PLACE_BITS),
        }
    }

    /// Returns the place of a coordinate along its axis, from 0.
    fn place(&self, coordinate: i32, least: i32) -> u32 {
        coordinate.abs_diff(least).wrapping_shr(self.width_bits)
    }

    /// Returns the number of a point's cell in Morton order.
    fn number(&self, point: Point) -> u32 {
        let x = self.place(point.x(), self.least.x());
        let y = self.place(point.y(), self.least.y());
        let z = self.place(point.z(), self.least.z());
        morton_number(x, y, z)
    }
}

/// Returns the keys of ids. A key has the number of the point's cell, then the id.
fn keys_of(
    alloc: Global,
    pts: &[Point],
    ids: &[Id],
    cells: &Cells,
) -> Result<Vec<Packed>, AllocError>
    requires { AreIndices pts.now ids.now }
    ensures { IfOk result (λ v. map low_of v.items ≡ ids.now) }
{
    let mut keys = Vec::with_capacity(alloc, ids.len())?;
    for id in ids {
        let cell = cells.number(point_at(pts, *id));
        keys.push(Packed::new(cell, id.number()))?;
    }
    Ok(keys)
}

/// Returns the ids of keys.
fn ids_of(alloc: Global, keys: Vec<Packed>) -> Result<Vec<Id>, AllocError>
    ensures { IfOk result (λ v. v.items ≡ map low_of keys.items) }
{
    keys.into_iter()
        .map(|key| Id::new(key.low()))
        .collect(alloc)
}

/// Sorts ids along a Morton curve through their points, so that the ids of near points are near each other. The ends
/// are those of the set along the three axes (see [`ends_of`](crate::starts::ends_of)).
///
/// # Errors
///
/// `Memory` if an allocation failed.
pub fn morton_order(
    alloc: Global,
    pts: &[Point],
    ids: &[Id],
    ends: &[Id; 6],
) -> Result<Vec<Id>, Memory>
    requires ids { AreIndices pts.now ids.now }
    requires ends { AreIndices pts.now ends.now }
    ensures { IfOk result (λ v. IsPermutation ids.now v.items) }
{
    let mut keys = keys_of(alloc, pts, ids, &Cells::around(pts, ends))?;
    keys.sort_unstable();
    Ok(ids_of(alloc, keys)?)
}
