//! Rows of points and their hulls, from the list of a cube in Geomview's OFF.
use qh_fixtures::points::{doubled_cube, grid};
use qh_model::{Hull, Memory, POINT_LIMIT, Point};
use qh_run::hull_alone;
use std::alloc::Global;
use std::test::Fail;

/// Returns the counts of a hull: its points, its distinct points, the dimension, its edges, extreme ids and faces.
fn counts_of(hull: &Hull) -> ((u32, u32), u8, u64, usize, usize) {
    let (body, counts) = (&hull.body, (hull.given, hull.distinct));
    let (extremes, faces) = (body.extremes.len(), body.polygons.len());
    (counts, body.dim, body.edges, extremes, faces)
}

/// Returns the hull of these points, whose number is above 0 and within the limit.
fn hull_of(alloc: Global, points: &[Point]) -> Result<Hull, Memory> {
    if points.is_empty() || points.len() > POINT_LIMIT as usize {
        return Err(Memory);
    }
    hull_alone(alloc, points)
}

#[test]
fn cube_with_each_corner_twice(rt: HostRuntime) -> Result<(), Fail> {
    let hull = hull_of(rt.alloc(), &doubled_cube(rt.alloc())?)?;
    assert_eq!(rt; counts_of(&hull), ((16, 8), 3, 12, 8, 6));
    Ok(())
}

/// A set of more than two blocks, each of which has ids that are extreme there but not in the whole set.
#[test]
fn lattice_of_a_cube(rt: HostRuntime) -> Result<(), Fail> {
    let hull = hull_of(rt.alloc(), &grid(rt.alloc(), [51; 3])?)?;
    assert_eq!(rt; counts_of(&hull), ((132651, 132651), 3, 12, 8, 6));
    let last = hull.body.extremes.last().map(|id| id.number());
    assert_eq!(rt; last, Some(132650));
    Ok(())
}
