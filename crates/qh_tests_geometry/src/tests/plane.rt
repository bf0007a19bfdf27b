//! Rows of eight points of a square, and of repeated points.
use qh_fixtures::ids::{EIGHT, are, ids_of};
use qh_fixtures::{Host, points_at};
use qh_model::{Id, Memory, POINT_LIMIT, Point, Polygon};
use qh_plane::{distinct, distinct_alone};
use qh_polygon::{Shape, polygon, rank};
use qh_pred::{Normal, cross};
use std::alloc::Global;
use std::test::Fail;

mod id_marks;
mod large_polygons;
mod many_points;
mod refusals;

/// Asserts that the ids have these numbers.
fn assert_ids(rt: &impl Host, ids: &[Id], numbers: &[u32]) {
    assert!(rt; are(ids, numbers), "{ids:?} and {numbers:?}");
}

/// Returns the corners of a square, the middles of its sides but one, and its centre.
fn square() -> [Point; 8] {
    points_at![0 0 0, 1 0 0, 2 0 0, 2 1 0, 2 2 0, 1 1 0, 0 2 0, 0 1 0]
}

/// Returns the distinct ids of points, found by threads, if they are those that the calling thread finds alone.
fn distinct_ids(rt: &impl Host, alloc: Global, pts: &[Point]) -> Result<Option<Vec<Id>>, Memory> {
    if pts.len() > POINT_LIMIT as usize {
        return Ok(None);
    }
    let (ids, alone) = (distinct(rt, alloc, pts)?, distinct_alone(alloc, pts)?);
    Ok((ids.as_slice() == alone.as_slice()).then_some(ids))
}

#[test]
fn repeated_points(rt: HostRuntime) -> Result<(), Fail> {
    let pts = points_at![7 0 0, 1 0 0, 7 0 0, 2 1 0, 1 0 0, -1 1 0];
    for (count, numbers) in [(6, [0, 1, 3, 5].as_slice()), (0, [].as_slice())] {
        let ids = distinct_ids(&rt, rt.alloc(), &pts[..count])?.ok_or("other ids alone")?;
        assert_ids(&rt, &ids, numbers);
    }
    Ok(())
}

/// Some of a list of points, and a normal of their plane.
type Seen<'a> = (&'a [Point], &'a [u32], Normal);

/// Returns the polygon of some of the points, seen from the side of a normal.
fn polygon_of(alloc: Global, seen: &Seen) -> Result<Polygon, Memory> {
    let (pts, numbers, normal) = (seen.0, seen.1, &seen.2);
    polygon(alloc, pts, &ids_of(alloc, pts, numbers)?, normal)
}

/// Asserts the polygons of some of the points, seen from the side of a normal and from the other side.
fn assert_polygons(rt: &impl Host, seen: &Seen, above: &[u32], below: &[u32]) -> Result<(), Fail> {
    let upper = polygon_of(rt.alloc(), seen)?;
    let opposite = (seen.0, seen.1, seen.2.opposite());
    let lower = polygon_of(rt.alloc(), &opposite)?;
    assert_ids(rt, upper.ids(), above);
    assert_ids(rt, lower.ids(), below);
    Ok(())
}

#[test]
fn polygons(rt: HostRuntime) -> Result<(), Fail> {
    let pts = square();
    let up = cross(pts[0], pts[1], pts[7]);
    assert_polygons(&rt, &(&pts, &EIGHT, up), &[0, 2, 4, 6], &[0, 6, 4, 2])
}

#[test]
fn triangles(rt: HostRuntime) -> Result<(), Fail> {
    let pts = square();
    let up = cross(pts[0], pts[2], pts[4]);
    assert_polygons(&rt, &(&pts, &[0, 2, 4], up), &[0, 2, 4], &[0, 4, 2])
}

/// Asserts the shape of some of the points.
fn assert_shape(rt: &impl Host, pts: &[Point], numbers: &[u32], wanted: Shape) -> Result<(), Fail> {
    let ids = ids_of(rt.alloc(), pts, numbers)?;
    if ids.is_empty() {
        return Err("no ids".into());
    }
    assert_eq!(rt; rank(pts, &ids), wanted);
    Ok(())
}

#[test]
fn shapes(rt: HostRuntime) -> Result<(), Fail> {
    let pts = square();
    let [a, b, c, d] = [0, 1, 3, 4].map(Id::new);
    assert_shape(&rt, &pts, &EIGHT, Shape::Flat(a, b, c))?;
    assert_shape(&rt, &pts, &[3], Shape::Point(c))?;
    assert_shape(&rt, &pts, &[0, 4, 5], Shape::Segment(a, d))
}
