//! Cells of space between the planes of a hull.
ghost use Rattle.std.specs.Prelude.{◌≡◌, ◌<ℤ◌, pos, IfOk, IsTrue, List, length};
ghost use Rattle.std.specs.List.{range_with_len};
ghost use Rattle.qh_pred.specs.contract.Planes.{PlaneValue, height};
ghost use Rattle.qh_block.specs.contract.Cells.{numbered, IsBelow, IsCellOf, IsHeld};

use crate::regions::bounds::Bounds;
use crate::regions::coarse_planes::CoarsePlane;
use qh_model::{COORDINATE_LIMIT, Memory, Point};
use std::alloc::{AllocError, Global};

/// A box of space, and the planes of a hull near it, by their numbers in a list.
///
/// Each other plane of the hull is strictly above all points of the box. So the near planes decide which of its points
/// are strictly inside the hull. Numbers take little memory; copies of the planes of all cells would not fit the cache
/// of a processor.
#[derive(Drop)]
pub struct Cell {
    pub bounds: Bounds,
    pub near: Vec<u32>,
}

/// Returns the numbers below a count, rising.
///
/// Returns `Err` if an allocation failed, or if the count exceeds the numbers of 32 bits.
fn numbers_below(alloc: Global, count: usize) -> Result<Vec<u32>, Memory>
    ensures { IfOk result (λ v. v.items ≡ range_with_len 0 count) }
{
    let Ok(end) = u32::try_from(count) else {
        return Err(Memory);
    };
    let mut numbers = Vec::with_capacity(alloc, count)?;
    for number in 0..end {
        numbers.push_reserved(number);
    }
    Ok(numbers)
}

/// Returns true if a plane of the list is strictly above all points between bounds.
fn is_far(planes: &[CoarsePlane], number: u32, bounds: &Bounds) -> bool
    ensures { IsTrue result → IsBelow bounds.now (numbered planes.now number) }
{
    match planes.get(number as usize) {
        Some(plane) => bounds.is_below(plane),
        None => false,
    }
}

/// Returns true if a point is strictly below a plane of the list.
fn is_under(planes: &[CoarsePlane], number: u32, p: Point) -> bool
    ensures { IsTrue result → height (numbered planes.now number) p <ℤ pos 0 }
{
    match planes.get(number as usize) {
        Some(plane) => plane.is_above(p),
        None => false,
    }
}

impl Cell {
    /// Returns the cell of all points. All planes are near it.
    pub fn whole(alloc: Global, count: usize) -> Result<Cell, Memory>
        ensures { IfOk result (λ c. (planes : List PlaneValue) → length planes ≡ count → IsCellOf planes c) }
    {
        let limit = COORDINATE_LIMIT as i32;
        Ok(Cell {
            bounds: Bounds {
                low: Point::new(-limit, -limit, -limit),
                high: Point::new(limit, limit, limit),
            },
            near: numbers_below(alloc, count)?,
        })
    }

    /// Returns the cell without points. No plane is near it.
    pub fn none(alloc: Global) -> Cell
        ensures { (planes : List PlaneValue) → IsCellOf planes result }
    {
        Cell {
            bounds: Bounds::none(),
            near: Vec::new(alloc),
        }
    }

    /// Returns the part of the cell that lies between bounds, with those planes that are near the part.
    pub fn part(
        &self,
        alloc: Global,
        planes: &[CoarsePlane],
        bounds: &Bounds,
    ) -> Result<Cell, AllocError>
        ensures { IfOk result (λ c. IsCellOf planes.now self.now → IsCellOf planes.now c) }
    {
        let bounds = self.bounds.common(bounds);
        let mut near = Vec::new(alloc);
        for number in &self.near {
            if !is_far(planes, *number, &bounds) {
                near.push(*number)?;
            }
        }
        Ok(Cell { bounds, near })
    }

    /// Returns the part of the cell that lies between bounds, with all planes that are near the cell.
    pub fn within(self, bounds: &Bounds) -> Cell
        ensures { (planes : List PlaneValue) → IsCellOf planes self → IsCellOf planes result }
    {
        Cell {
            bounds: self.bounds.common(bounds),
            near: self.near,
        }
    }

    /// Returns true if a point is in the box and strictly below all planes that are near.
    pub fn holds(&self, planes: &[CoarsePlane], p: Point) -> bool
        ensures { IsTrue result → IsHeld planes.now self.now p }
    {
        self.bounds.contains(p) && self.near.iter().all(|number| is_under(planes, *number, p))
    }
}
