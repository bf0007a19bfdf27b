//! The numbers of cells along a curve: the Hilbert curve through the larger cells, and within each of these the Morton
//! curve.
//!
//! Source: Skilling 2004 (Hilbert's order from places, by exchanges and turns of their bits).
use qh_model::Point;
use qh_model::keys::morton_number;
use qh_surface::starts::Axes;
use std::alloc::{AllocError, Global};

/// The bits of a place along an axis. Three of them fit a cell's number.
const PLACE_BITS: u32 = 10;

/// The bits of a larger cell's place along an axis.
const LARGE_BITS: u32 = 5;

/// The number of larger cells: 2^15.
const LARGE_CELLS: u32 = 32768;

/// The bits of a cell's number that distinguish it from others in its larger cell: three times 5.
const INNER_BITS: u32 = 15;

/// The greatest place of a larger cell along an axis.
const LARGE_PLACES: u32 = 31;

/// A cell: its places along the three axes of a set.
#[derive(Clone, Copy, Drop)]
pub struct CurveCell {
    x: u32,
    y: u32,
    z: u32,
}

/// The number of each larger cell in Hilbert's order, indexed by its number in Morton's order.
#[derive(Drop)]
pub(crate) struct CellTable {
    turned: Vec<u32>,
}

impl CurveCell {
    /// Returns the cell of a point.
    pub fn of(axes: &Axes, point: Point) -> CurveCell {
        let [x, y, z] = axes.places(point, PLACE_BITS);
        CurveCell { x, y, z }
    }

    /// Returns the number of the cell in Morton's order.
    pub fn interleaved(self) -> u32 {
        morton_number(self.x, self.y, self.z)
    }

    /// Returns the cell after the turns that a bit of its places requires. `below` has the bits below it.
    fn turned_below(self, bit: u32, below: u32) -> CurveCell {
        let x = if self.x & bit != 0 {
            self.x ^ below
        } else {
            self.x
        };
        let (x, y) = turned_pair(x, self.y, bit, below);
        let (x, z) = turned_pair(x, self.z, bit, below);
        CurveCell { x, y, z }
    }

    /// Returns the cell whose number in Morton's order is the number of this larger cell in Hilbert's order.
    fn turned(self) -> CurveCell {
        let mut cell = self;
        for level in 1..LARGE_BITS {
            let bit = 1u32.wrapping_shl(LARGE_BITS - level);
            cell = cell.turned_below(bit, bit.wrapping_sub(1));
        }
        cell.y ^= cell.x;
        cell.z ^= cell.y;
        let change = parities(cell.z);
        CurveCell {
            x: cell.x ^ change,
            y: cell.y ^ change,
            z: cell.z ^ change,
        }
    }
}

/// Returns the place along the first axis and another one after the turn that a bit of the other one requires.
fn turned_pair(x: u32, other: u32, bit: u32, below: u32) -> (u32, u32) {
    if other & bit != 0 {
        return (x ^ below, other);
    }
    let change = (x ^ other) & below;
    (x ^ change, other ^ change)
}

/// Returns for each bit of a larger place whether the number of bits set above it is odd.
fn parities(place: u32) -> u32 {
    let mut change = 0;
    for level in 1..LARGE_BITS {
        let bit = 1u32.wrapping_shl(level);
        if place & bit != 0 {
            change ^= bit.wrapping_sub(1);
        }
    }
    change
}

impl CellTable {
    /// Returns the larger cells in Hilbert's order.
    ///
    /// # Errors
    ///
    /// `AllocError` if an allocation failed.
    pub fn in_order(alloc: Global) -> Result<CellTable, AllocError> {
        let mut turned = vec![in alloc; 0; LARGE_CELLS as usize]?;
        for number in 0..LARGE_CELLS {
            let large = CurveCell {
                x: number & LARGE_PLACES,
                y: number >> LARGE_BITS & LARGE_PLACES,
                z: number >> (2 * LARGE_BITS) & LARGE_PLACES,
            };
            if let Some(cell) = turned.get_mut(large.interleaved() as usize) {
                *cell = large.turned().interleaved();
            }
        }
        Ok(CellTable { turned })
    }

    /// Returns the number of a cell along the curve.
    pub fn number(&self, cell: CurveCell) -> u32 {
        let number = cell.interleaved();
        let large = self.turned.get((number >> INNER_BITS) as usize);
        large.copied().unwrap_or(0) << INNER_BITS | number & (LARGE_CELLS - 1)
    }
}
