//! Filters few points and the lattice points of a cube, of which 8 are extreme, and extreme ids without a filter.
use crate::tests::distinct_ids;
use qh_block::{cull_interior, extremes_unculled};
use qh_fixtures::Host;
use qh_fixtures::points::grid;
use qh_model::{Id, Memory, Point};
use std::test::Fail;

/// The ids that the filter leaves, unless it leaves all, and the extreme ones.
type Found = (Option<Vec<Id>>, Vec<Id>);

/// Returns the ids that the filter leaves of points, with a number of threads, and the extreme ones.
fn left_of(rt: &impl Host, points: &[Point], threads: u32) -> Result<Found, Memory> {
    let ids = distinct_ids(rt.alloc(), points)?;
    if ids.is_empty() {
        return Err(Memory);
    }
    let left = cull_interior(rt, rt.alloc(), points, &ids, threads)?;
    Ok((left, extremes_unculled(rt.alloc(), points, &ids)?))
}

#[test]
fn few_points(rt: HostRuntime) -> Result<(), Fail> {
    let (left, extremes) = left_of(&rt, &grid(rt.alloc(), [3; 3])?, 4)?;
    assert!(rt; left.is_none());
    assert_eq!(rt; extremes.len(), 8usize);
    Ok(())
}

#[test]
fn many_points(rt: HostRuntime) -> Result<(), Fail> {
    let points = grid(rt.alloc(), [40; 3])?;
    let (left, extremes) = left_of(&rt, &points, 3)?;
    assert!(rt; left_of(&rt, &points, 1)?.0 == left);
    let count = left.ok_or("no interior point")?.len();
    assert!(rt; count < points.len() / 2, "{count} ids");
    assert_eq!(rt; extremes.len(), 8usize);
    Ok(())
}
