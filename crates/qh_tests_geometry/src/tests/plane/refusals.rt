//! Calls during which one allocation fails: the result is right, or the call is out of memory and returns the right
//! result when it is repeated. `scripts/trials/refusals.py` makes each allocation fail in turn.
use super::large_polygons::{grid_polygon, grid_with_point_outside, normal_of};
use super::{Seen, assert_ids, polygon_of};
use qh_fixtures::points::{cube, square};
use qh_fixtures::{Host, again, points_at};
use qh_model::{Memory, POINT_LIMIT, Point};
use qh_plane::distinct;
use qh_pred::cross;
use std::test::Fail;

/// Returns a side of an octahedron with the middles of its edges, one of them twice.
fn side() -> [Point; 7] {
    points_at![2 0 0, 1 1 0, 0 2 0, 0 0 2, 1 1 0, 1 0 1, 0 1 1]
}

/// Asserts which ids are distinct. Repeats the call if an allocation failed.
fn assert_distinct(rt: &impl Host, pts: &[Point], wanted: &[u32]) -> Result<(), Fail> {
    if pts.len() > POINT_LIMIT as usize {
        return Err("too many points".into());
    }
    let ids = again!(distinct(rt, rt.alloc(), pts), Memory)?;
    assert_ids(rt, &ids, wanted);
    Ok(())
}

#[test]
fn tries_again_for_distinct_ids(rt: HostRuntime) -> Result<(), Fail> {
    assert_distinct(&rt, &square(), &[0, 1, 2, 3, 4])?;
    assert_distinct(&rt, &cube(0, 1), &[0, 1, 2, 3, 4, 5, 6, 7])?;
    assert_distinct(&rt, &side(), &[0, 1, 2, 3, 5, 6])
}

/// Asserts the polygon of some of the points. Repeats the call if an allocation failed.
fn assert_polygon(rt: &impl Host, seen: &Seen, wanted: &[u32]) -> Result<(), Fail> {
    let corners = again!(polygon_of(rt.alloc(), seen), Memory)?;
    assert_ids(rt, corners.ids(), wanted);
    Ok(())
}

#[test]
fn tries_again_for_polygons(rt: HostRuntime) -> Result<(), Fail> {
    let (square, cube, side) = (square(), cube(0, 1), side());
    let up = cross(square[0], square[1], square[2]);
    let left = cross(cube[0], cube[1], cube[2]);
    let outward = cross(side[0], side[2], side[3]);
    assert_polygon(&rt, &(&square, &[0, 1, 2, 3, 4], up), &[0, 1, 2, 3])?;
    assert_polygon(&rt, &(&cube, &[0, 1, 2, 3], left), &[0, 1, 3, 2])?;
    assert_polygon(&rt, &(&side, &[0, 1, 2, 3, 5, 6], outward), &[0, 2, 3])?;
    assert_polygon(&rt, &(&side, &[0, 2, 3], outward), &[0, 2, 3])
}

#[test]
fn tries_again_for_a_large_polygon(rt: HostRuntime) -> Result<(), Fail> {
    let grid = grid_with_point_outside();
    let normal = normal_of(&grid);
    let corners = again!(grid_polygon(rt.alloc(), &grid, &normal), Memory)?;
    assert_ids(&rt, corners.ids(), &[0, 2450, 69, 4899, 4830]);
    Ok(())
}
