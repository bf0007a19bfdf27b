//! Calls during which one allocation fails: the result is right, or the call is out of memory and returns the right
//! result when it is repeated. `scripts/trials/refusals.py` makes each allocation fail in turn.
use super::solid_rows::{CUBE, OCTAHEDRON};
use super::surfaces::{is_surface, solid_surface, triangles};
use super::{Row, SQUARE, hull_of, is};
use qh_fixtures::again;
use qh_fixtures::ids::are;
use qh_fixtures::points::{cube, octahedron, square};
use qh_model::{Memory, Point};
use std::alloc::{AllocError, Global};
use std::test::Fail;

/// Returns true if the result is a surface; `None` if the points are flat. Repeats the call if an allocation failed.
fn has_surface(alloc: Global, pts: &[Point]) -> Result<Option<bool>, Memory> {
    let Some(mesh) = again!(solid_surface(alloc, pts), Memory)? else {
        return Ok(None);
    };
    let list = again!(triangles(alloc, &mesh), AllocError)?;
    Ok(Some(again!(is_surface(alloc, pts, &list), AllocError)?))
}

/// Returns true if the hull, the extreme ids and the surface are those of a row. Repeats each call that fails.
fn comes_out_right(alloc: Global, pts: &[Point], row: &Row) -> Result<bool, Fail> {
    let (body, corners) = again!(hull_of(alloc, pts), Memory)?.ok_or("no points")?;
    let is_right = has_surface(alloc, pts)? == (row.dim == 3).then_some(true);
    Ok(is_right && is(&body, row) && are(&corners, row.extremes))
}

#[test]
fn tries_again(rt: HostRuntime) -> Result<(), Fail> {
    assert!(rt; comes_out_right(rt.alloc(), &square(), &SQUARE)?);
    assert!(rt; comes_out_right(rt.alloc(), &cube(0, 1), &CUBE)?);
    assert!(rt; comes_out_right(rt.alloc(), &octahedron(), &OCTAHEDRON)?);
    Ok(())
}
