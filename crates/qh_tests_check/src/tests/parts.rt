//! Hulls of few ids by parts, compared with those of one thread.
use qh_block::hull;
use qh_fixtures::ids::ids_of;
use qh_fixtures::points::{cube, octahedron, square};
use qh_fixtures::{Host, table};
use qh_model::{Body, Memory, Point};
use qh_parts::{Parting, Seams, hull_by_parts, hull_in_parts};
use std::alloc::Global;
use std::test::Fail;

/// The ids of a set, of which a test uses the first ones.
const NUMBERS: [u32; 18] = [0, 1, 2, 3, 4, 5, 6, 7, 8, 9, 10, 11, 12, 13, 14, 15, 16, 17];

/// The properties of a hull that the tests compare: its dimension, and the numbers of extreme ids, faces and edges.
type Told = (u8, usize, usize, u64);

/// Returns the properties of a hull.
fn told(body: &Body) -> Told {
    let (extremes, faces) = (body.extremes.len(), body.polygons.len());
    (body.dim, extremes, faces, body.edges)
}

/// A cube: eight corners, six squares.
const CUBE: Told = (3, 8, 6, 12);

/// An octahedron: six corners, eight triangles.
const OCTAHEDRON: Told = (3, 6, 8, 12);

/// Returns the hull of points by a number of threads and in these parts; `None` if the attempt fails.
fn by_parts(rt: &impl Host, pts: &[Point], by: (u32, Parting)) -> Result<Option<Body>, Memory> {
    let (threads, parting) = by;
    let ids = ids_of(rt.alloc(), pts, &NUMBERS)?;
    hull_by_parts(rt, rt.alloc(), pts, &ids, threads, parting)
}

#[test]
fn parts_are_joined_where_they_are_solid(rt: HostRuntime) -> Result<(), Fail> {
    let (cube, octahedron, square) = (cube(0, 1), octahedron(), square());
    // Each of 16 parts has one or two ids. The few corners of 3 parts have one hull. No part of the square is solid.
    for (pts, parts, seams, wanted) in table![
        (cube.as_slice(), 2, Seams::Always, Some(CUBE));
        (octahedron.as_slice(), 16, Seams::Always, Some(OCTAHEDRON));
        (octahedron.as_slice(), 3, Seams::WhereTheyPay, Some(OCTAHEDRON));
        (square.as_slice(), 2, Seams::Always, None);
    ] {
        let parting = Parting { parts, seams };
        let found = by_parts(&rt, pts, (2, parting))?.map(|body| told(&body));
        assert_eq!(rt; found, wanted, "{parts} parts");
    }
    Ok(())
}

/// Returns the hull of points by one thread; `None` if there are no points.
fn whole(alloc: Global, pts: &[Point]) -> Result<Option<Body>, Memory> {
    let ids = ids_of(alloc, pts, &NUMBERS)?;
    if ids.is_empty() {
        return Ok(None);
    }
    Ok(Some(hull(alloc, pts, &ids)?))
}

#[test]
fn joined_faces_stand_in_order(rt: HostRuntime) -> Result<(), Fail> {
    let pts = octahedron();
    let whole = whole(rt.alloc(), &pts)?.ok_or("no points")?;
    let (parts, seams) = (4, Seams::Always);
    let joined = by_parts(&rt, &pts, (3, Parting { parts, seams }))?.ok_or("no parts")?;
    assert_eq!(rt; joined.polygons.len(), whole.polygons.len());
    for (polygon, other) in joined.polygons.iter().zip(&whole.polygons) {
        assert!(rt; polygon.ids() == other.ids());
    }
    Ok(())
}

#[test]
fn few_ids_are_not_parted(rt: HostRuntime) -> Result<(), Fail> {
    let pts = cube(0, 1);
    let ids = ids_of(rt.alloc(), &pts, &NUMBERS)?;
    assert!(rt; ids.len() == 8);
    assert!(rt; told(&hull_in_parts(&rt, rt.alloc(), &pts, &ids, 4)?) == CUBE);
    Ok(())
}
