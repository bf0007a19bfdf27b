//! Rows of solid sets: their extreme ids, faces and edges.

use super::{Row, assert_hull};
use qh_fixtures::points::{LIMIT, cube, doubled_cube, grid, octahedron, point, tetrahedron};
use qh_model::Point;
use std::alloc::{AllocError, Global};
use std::test::Fail;

pub(super) const CUBE: Row<'static> =
    row![3; 0 1 2 3 4 5 6 7; 0 1 3 2, 0 2 6 4, 0 4 5 1, 1 5 7 3, 2 3 7 6, 4 6 7 5; 12];

pub(super) const OCTAHEDRON: Row<'static> =
    row![3; 0 2 3 5 6 9; 0 2 6, 0 5 9, 0 6 5, 0 9 2, 2 3 6, 2 9 3, 3 5 6, 3 9 5; 12];

const TETRAHEDRON: Row<'static> = row![3; 0 1 2 3; 0 1 3, 0 2 1, 0 3 2, 1 2 3; 6];

/// The cube, with each corner given twice.
const DOUBLED_CUBE: Row<'static> = row![
    3; 0 2 4 6 8 10 12 14; 0 2 6 4, 0 4 12 8, 0 8 10 2, 2 10 14 6, 4 6 14 12, 8 12 14 10; 12
];

/// The cube of 27 lattice points.
const LATTICE: Row<'static> = row![
    3; 0 2 6 8 18 20 24 26; 0 2 8 6, 0 6 24 18, 0 18 20 2, 2 20 26 8, 6 8 26 24, 18 24 26 20; 12
];

/// The cube of `greatest_and_least`: its faces are those of the unit cube, by its corners.
const GREATEST_AND_LEAST: Row<'static> = row![
    3; 0 1 198 199 19800 19801 19998 19999;
    0 1 19801 19800, 0 198 199 1, 0 19800 19998 198, 1 199 19999 19801, 198 19998 19999 199,
    19800 19801 19999 19998; 12
];

#[test]
fn few_points(rt: HostRuntime) -> Result<(), Fail> {
    assert_hull(&rt, &tetrahedron(), &TETRAHEDRON)?;
    for cube in [cube(0, 1), cube(-1048576, 1048576), cube(-LIMIT, LIMIT)] {
        assert_hull(&rt, &cube, &CUBE)?;
    }
    assert_hull(&rt, &octahedron(), &OCTAHEDRON)?;
    assert_hull(&rt, &doubled_cube(rt.alloc())?, &DOUBLED_CUBE)?;
    assert_hull(&rt, &grid(rt.alloc(), [3; 3])?, &LATTICE)
}

/// Returns 20,000 points, which alternately have the greatest and the least x.
fn greatest_and_least(alloc: Global, greatest: i32) -> Result<Vec<Point>, AllocError> {
    let mut pts = Vec::new(alloc);
    for y in 0..100i32 {
        for z in 0..100i32 {
            pts.push(point(greatest, y, z))?;
            pts.push(point(greatest.wrapping_neg(), y, z))?;
        }
    }
    Ok(pts)
}

#[test]
fn points_at_the_greatest_and_least_coordinate(rt: HostRuntime) -> Result<(), Fail> {
    for greatest in [1048576, LIMIT] {
        let pts = greatest_and_least(rt.alloc(), greatest)?;
        assert_hull(&rt, &pts, &GREATEST_AND_LEAST)?;
    }
    Ok(())
}
