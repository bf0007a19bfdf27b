//! A large grid in planes across each axis and in a slanted one: its inner points are dropped before the sort.
use crate::tests::distinct_ids;
use qh_model::{Memory, Point, Polygon};
use qh_polygon::{outer_ids, polygon};
use qh_pred::{Normal, cross};
use std::alloc::Global;
use std::test::Fail;

/// A grid with 70 points on each side.
type Grid = [Point; 4900];

/// Grids in a plane across each axis, and in a slanted one.
fn grids() -> [Grid; 4] {
    let mut grids = [[Point::new(0, 0, 0); 4900]; 4];
    for number in 0..4900usize {
        let (x, y) = ((number % 70) as i32, (number / 70) as i32);
        grids[0][number] = Point::new(0, x, y);
        grids[1][number] = Point::new(y, 0, x);
        grids[2][number] = Point::new(x, y, 0);
        grids[3][number] = Point::new(x, y, x + y);
    }
    grids
}

/// Returns the slanted grid with one inner point moved to another place of the plane, outside a side.
pub fn grid_with_point_outside() -> Grid {
    let [_, _, _, mut grid] = grids();
    grid[2450] = Point::new(35, -1, 34);
    grid
}

/// Returns the normal from whose side the rows of a grid appear one above the other.
pub fn normal_of(grid: &Grid) -> Normal {
    cross(grid[0], grid[69], grid[4899])
}

/// Returns the number of ids that the interior filter leaves.
fn left_of(alloc: Global, grid: &Grid, normal: &Normal) -> Result<usize, Memory> {
    let ids = distinct_ids(alloc, grid)?;
    match outer_ids(alloc, grid, normal, &ids)? {
        Some(outer) => Ok(outer.len()),
        None => Ok(ids.len()),
    }
}

/// Returns the polygon of a grid.
pub fn grid_polygon(alloc: Global, grid: &Grid, normal: &Normal) -> Result<Polygon, Memory> {
    polygon(alloc, grid, &distinct_ids(alloc, grid)?, normal)
}

#[test]
fn inner_points_go(rt: HostRuntime) -> Result<(), Fail> {
    for grid in grids() {
        let normal = normal_of(&grid);
        for side in [normal.opposite(), normal] {
            let left = left_of(rt.alloc(), &grid, &side)?;
            assert!(rt; left < 1000, "{left}");
        }
    }
    Ok(())
}
