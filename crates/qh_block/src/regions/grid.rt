//! A square grid of columns in x and y.
ghost use Rattle.std.specs.Prelude.{◌≡◌};
ghost use Rattle.qh_model.specs.headline.Limits.{IsCoordinate};

use crate::regions::bounds::Bounds;
use crate::regions::id_set::IdSet;
use qh_model::{COORDINATE_LIMIT, Point};
use qh_pred::point_at;

/// The position of the columns: the least x and y, and the power of 2 that is the width of each column.
#[derive(Clone, Copy, Drop)]
pub struct Grid {
    west: i32,
    south: i32,
    width_bits: u32,
}

/// A square of columns: the place of its first column, and the power of 2 that is the length of its side.
#[derive(Clone, Copy, Drop)]
pub struct Square {
    pub x: u32,
    pub y: u32,
    pub bits: u32,
}

/// Returns the coordinate nearest to a number.
pub fn nearest_coordinate(number: i64) -> i32
    ensures { IsCoordinate result }
{
    let limit = i64::from(COORDINATE_LIMIT);
    number.clamp(-limit, limit) as i32
}

/// Moves each of the lowest eight bits of two halves of a number to twice its place.
fn spread(halves: u32) -> u32 {
    let fours = (halves | halves.wrapping_shl(4)) & 0x0F0F_0F0F;
    let twos = (fours | fours.wrapping_shl(2)) & 0x3333_3333;
    (twos | twos.wrapping_shl(1)) & 0x5555_5555
}

impl Square {
    /// Returns the square of all columns, 2 to the power `side_bits` along each axis.
    pub fn whole(side_bits: u32) -> Square {
        Square {
            x: 0,
            y: 0,
            bits: side_bits,
        }
    }

    /// Returns the number of columns in the square.
    pub fn columns(&self) -> usize {
        1usize.wrapping_shl(self.bits.saturating_mul(2))
    }

    /// Returns one of the four squares in it, by the two bits of its number, with a side of 2 to the power `bits`.
    pub fn quarter(&self, bits: u32, number: u32) -> Square
        ensures { result.bits ≡ bits }
    {
        let side = 1u32.wrapping_shl(bits);
        Square {
            x: self.x.wrapping_add(side.wrapping_mul(number / 2)),
            y: self.y.wrapping_add(side.wrapping_mul(number % 2)),
            bits,
        }
    }
}

impl Grid {
    /// Returns the grid over the points of ids, with 2 to the power `side_bits` columns along each axis.
    pub fn over(set: IdSet, side_bits: u32) -> Grid {
        let (mut west, mut east) = (i32::MAX, i32::MIN);
        let (mut south, mut north) = (i32::MAX, i32::MIN);
        for id in set.ids {
            let point = point_at(set.pts, *id);
            west = west.min(point.x());
            east = east.max(point.x());
            south = south.min(point.y());
            north = north.max(point.y());
        }
        let extent = east.abs_diff(west).max(north.abs_diff(south));
        let bits = u32::BITS - extent.leading_zeros();
        Grid {
            west,
            south,
            width_bits: bits.saturating_sub(side_bits),
        }
    }

    /// Returns the least and the greatest coordinate between two places along one axis.
    fn ends(&self, from: i32, place: u32, next: u32) -> (i32, i32)
        ensures low { IsCoordinate result.0 }
        ensures high { IsCoordinate result.1 }
    {
        let from = i64::from(from);
        let low = from.wrapping_add(i64::from(place).wrapping_shl(self.width_bits));
        let end = from.wrapping_add(i64::from(next).wrapping_shl(self.width_bits));
        (
            nearest_coordinate(low),
            nearest_coordinate(end.wrapping_sub(1)),
        )
    }

    /// Returns all points over a square of columns.
    pub fn bounds(&self, square: &Square) -> Bounds {
        let side = 1u32.wrapping_shl(square.bits);
        let (west, east) = self.ends(self.west, square.x, square.x.saturating_add(side));
        let (south, north) = self.ends(self.south, square.y, square.y.saturating_add(side));
        let limit = COORDINATE_LIMIT as i32;
        Bounds {
            low: Point::new(west, south, -limit),
            high: Point::new(east, north, limit),
        }
    }

    /// Returns the number of a point's column in the order of the quarters. The point has to lie over the grid.
    pub fn number(&self, p: Point) -> usize {
        let x = p.x().abs_diff(self.west).wrapping_shr(self.width_bits);
        let y = p.y().abs_diff(self.south).wrapping_shr(self.width_bits);
        let halves = spread(y.min(0xFF) | x.min(0xFF).wrapping_shl(16));
        (halves | halves.wrapping_shr(15)) as usize & 0xFFFF
    }
}
