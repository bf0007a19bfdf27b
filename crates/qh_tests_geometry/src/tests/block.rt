//! Rows of sets in a point, a line and a plane.

use super::distinct_ids;
use qh_block::{extremes, hull};
use qh_fixtures::faces::are_round;
use qh_fixtures::ids::are;
use qh_fixtures::points::{point, square, times};
use qh_fixtures::{Host, points_at};
use qh_model::{Body, Id, Memory, Point};
use std::alloc::Global;
use std::test::Fail;

/// The expected hull of points: the dimension, the extreme ids, the faces and the number of edges.
#[derive(Clone, Copy, Drop)]
struct Row<'a> {
    dim: u8,
    extremes: &'a [u32],
    faces: &'a [&'a [u32]],
    edges: u64,
}

/// A row, as `row![2; 0 1 2 3; 0 3 2 1; 4]`.
macro_rules! row {
    ($dim:literal; $($id:literal)+; $($($corner:literal)+),+; $edges:literal) => {
        Row { dim: $dim, extremes: &[$($id),+], faces: &[$(&[$($corner),+]),+], edges: $edges }
    };
}

mod face_order;
mod looks;
mod refusals;
mod solid_rows;
mod surfaces;

const SQUARE: Row<'static> = row![2; 0 1 2 3; 0 1 2 3; 4];

/// The square seen from its other side.
const TURNED_SQUARE: Row<'static> = row![2; 0 1 2 3; 0 3 2 1; 4];

/// Returns true if a body is that of a row.
fn is(body: &Body, row: &Row) -> bool {
    body.dim == row.dim
        && body.edges == row.edges
        && are(&body.extremes, row.extremes)
        && are_round(&body.polygons, row.faces)
}

/// Returns the hull of the distinct points of a list, and their extreme ids; `None` if there are no points.
fn hull_of(alloc: Global, pts: &[Point]) -> Result<Option<(Body, Vec<Id>)>, Memory> {
    let ids = distinct_ids(alloc, pts)?;
    if ids.is_empty() {
        return Ok(None);
    }
    Ok(Some((hull(alloc, pts, &ids)?, extremes(alloc, pts, &ids)?)))
}

/// Asserts that the hull of the distinct points of a list, and their extreme ids, are those of a row.
fn assert_hull(rt: &impl Host, pts: &[Point], row: &Row) -> Result<(), Fail> {
    let (body, corners) = hull_of(rt.alloc(), pts)?.ok_or("no points")?;
    let holds = is(&body, row) && are(&corners, row.extremes);
    assert!(rt; holds, "{body:?} and {corners:?}");
    Ok(())
}

#[test]
fn one_point(rt: HostRuntime) -> Result<(), Fail> {
    let pts = [Point::new(3, 1, 0), Point::new(5, 5, 5)];
    let body = hull(rt.alloc(), &pts, &[Id::new(1)])?;
    assert!(rt; is(&body, &row![0; 1; 1; 0]), "{body:?}");
    Ok(())
}

#[test]
fn five_in_line(rt: HostRuntime) -> Result<(), Fail> {
    let pts = points_at![1 1 1, 0 0 0, 4 4 4, 2 2 2, 3 3 3];
    assert_hull(&rt, &pts, &row![1; 1 2; 1 2; 1])
}

#[test]
fn square_with_centre(rt: HostRuntime) -> Result<(), Fail> {
    assert_hull(&rt, &square(), &SQUARE)
}

/// Three places beside the origin.
type Places = [(i32, i32, i32); 3];

/// Squares with a corner at the origin, whose normals have each pattern of signs, and the row of each.
const SQUARES: [(Places, Row<'static>); 8] = [
    ([(2, 1, -2), (4, -1, -1), (2, -2, 1)], TURNED_SQUARE),
    ([(2, 1, 2), (4, -1, 1), (2, -2, -1)], SQUARE),
    ([(2, -1, -2), (4, 1, -1), (2, 2, 1)], SQUARE),
    ([(2, -1, 2), (4, 1, 1), (2, 2, -1)], TURNED_SQUARE),
    ([(-2, 1, -2), (-4, -1, -1), (-2, -2, 1)], TURNED_SQUARE),
    ([(-2, 1, 2), (-4, -1, 1), (-2, -2, -1)], SQUARE),
    ([(-2, -1, -2), (-4, 1, -1), (-2, 2, 1)], SQUARE),
    ([(-2, -1, 2), (-4, 1, 1), (-2, 2, -1)], TURNED_SQUARE),
];

/// The factors by which the squares are also scaled: up to 2^20 and to 2^30.
const FACTORS: [i32; 3] = [1, 262144, 268435456];

/// Asserts the hull of a square, unscaled and scaled.
fn assert_squares(rt: &impl Host, corners: &[Point; 4], row: &Row) -> Result<(), Fail> {
    for factor in FACTORS {
        assert_hull(rt, &corners.map(|corner| times(corner, factor)), row)?;
    }
    Ok(())
}

#[test]
fn squares(rt: HostRuntime) -> Result<(), Fail> {
    for (places, row) in SQUARES {
        let [b, c, d] = places.map(|(x, y, z)| point(x, y, z));
        assert_squares(&rt, &[point(0, 0, 0), b, c, d], &row)?;
    }
    Ok(())
}

#[test]
fn squares_across_the_first_axis(rt: HostRuntime) -> Result<(), Fail> {
    let corners = points_at![5 0 0, 5 0 2, 5 2 2, 5 2 0];
    assert_squares(&rt, &corners, &TURNED_SQUARE)
}
