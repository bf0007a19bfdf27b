//! The guesses for the cube.
use super::{first_marks, halves_of};
use qh_fixtures::faces::{CUBE_FACES, polygons_of};
use qh_fixtures::ids::{EIGHT, ids_of};
use qh_fixtures::points::cube;
use qh_model::{Memory, Polygon};
use qh_parts_guess::curve::{along_curve, shared_ids};
use qh_parts_guess::gap::{border_of, bridge_over};
use qh_parts_join::{Divided, Run};
use qh_polygon::rising_ids;
use std::alloc::{AllocError, Global};
use std::test::Fail;

/// The results for the first part: facets that stay, corners with witnesses, corners at the gap, and if a seam pays.
type Found = (usize, usize, usize, bool);

/// Returns the number of ids with witnesses.
fn count(runs: &[Vec<Run>]) -> usize {
    let mut count = 0usize;
    for run in runs.iter().flatten() {
        count = count.saturating_add(run.count);
    }
    count
}

/// Returns the results for the first part of the cube.
fn first_part(alloc: Global) -> Result<Option<Found>, Memory> {
    let pts = cube(0, 1);
    let Some(halves) = halves_of(alloc, &pts)? else {
        return Ok(None);
    };
    let (pts, parts, shared) = (&pts, &halves.parts, &halves.shared);
    let (marks, is_worth) = first_marks(alloc, Divided { pts, parts, shared })?;
    let staying = marks.stay.iter().filter(|stays| **stays).count();
    let beside = rising_ids(alloc, &marks.seam)?.len();
    Ok(Some((staying, count(&marks.runs), beside, is_worth)))
}

#[test]
fn the_square_of_the_first_part_stays(rt: HostRuntime) -> Result<(), Fail> {
    assert_eq!(rt; first_part(rt.alloc())?, Some((2, 2, 6, false)));
    Ok(())
}

/// Returns the numbers of the corners of polygons, one polygon after the other.
fn numbers(alloc: Global, polygons: &[Polygon]) -> Result<Vec<u32>, AllocError> {
    let mut numbers = Vec::new(alloc);
    for polygon in polygons {
        for id in polygon.ids() {
            numbers.push(id.number())?;
        }
    }
    Ok(numbers)
}

/// Returns the numbers of the corners of the polygons that close the gap that some faces of the cube leave.
fn bridged(alloc: Global, go: &[&[u32]]) -> Result<Option<Vec<u32>>, Memory> {
    let go = polygons_of(alloc, go)?;
    let borders = [border_of(alloc, &[true], &go)?];
    match bridge_over(alloc, polygons_of(alloc, &CUBE_FACES)?, &borders)? {
        Some(polygons) => Ok(Some(numbers(alloc, &polygons)?)),
        None => Ok(None),
    }
}

#[test]
fn four_squares_are_between_two(rt: HostRuntime) -> Result<(), Fail> {
    let found = bridged(rt.alloc(), &CUBE_FACES[1..5])?.ok_or("a gap")?;
    assert_eq!(rt; found.len(), 16);
    // The squares are in any order.
    for square in &CUBE_FACES[1..5] {
        assert!(rt; found.chunks(4).any(|part| part == *square), "{found:?}");
    }
    Ok(())
}

#[test]
fn no_face_has_a_diagonal(rt: HostRuntime) -> Result<(), Fail> {
    assert!(rt; bridged(rt.alloc(), &[&[0, 7, 1]])?.is_none());
    Ok(())
}

#[test]
fn first_four_shared_corners_are_solid(rt: HostRuntime) -> Result<(), Fail> {
    let pts = cube(0, 1);
    let ids = ids_of(rt.alloc(), &pts, &EIGHT)?;
    let shared = shared_ids(rt.alloc(), &pts, &ids)?.ok_or("a plane")?;
    let [i, j, k, l, ..] = shared.as_slice() else {
        return Err(Fail::from("fewer than four"));
    };
    let four = [i.number(), j.number(), k.number(), l.number()];
    let corners = ids_of(rt.alloc(), &pts, &four)?;
    assert!(rt; shared_ids(rt.alloc(), &pts, &corners)?.is_some());
    Ok(())
}

#[test]
fn the_curve_has_each_id_once(rt: HostRuntime) -> Result<(), Fail> {
    let pts = cube(0, 1);
    let ids = ids_of(rt.alloc(), &pts, &EIGHT)?;
    let listed = along_curve(&rt, rt.alloc(), &pts, &ids, &ids, 2)?;
    let rising = rising_ids(rt.alloc(), &listed)?;
    assert!(rt; listed.len() == 8 && rising.as_slice() == ids.as_slice());
    Ok(())
}
