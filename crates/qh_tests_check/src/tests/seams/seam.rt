//! The ids that are kept of the cube, and the joining of its faces.

use super::{Halves, first_marks, halves_of};
use qh_block::PartedFaces;
use qh_bodies::UnsortedFaces;
use qh_fixtures::Host;
use qh_fixtures::faces::{CUBE_FACES, are_round, polygons_of};
use qh_fixtures::ids::{EIGHT, ids_of};
use qh_fixtures::points::cube;
use qh_model::{Body, Memory};
use qh_parts::seam::staying_faces;
use qh_parts_guess::Marks;
use qh_parts_join::join::{Kept, corners_of, join_faces};
use qh_parts_join::{Divided, Guess, kept_ids};
use std::alloc::Global;
use std::test::Fail;

/// The facets that are marked to stay.
#[derive(Clone, Copy, Drop)]
enum Marking {
    Guessed,
    All,
}

/// Returns the faces of the first part, separated into those that it contributes and the others, by a marking.
fn first_faces(alloc: Global, marking: Marking) -> Result<Option<PartedFaces>, Memory> {
    let pts = cube(0, 1);
    let Some(halves) = halves_of(alloc, &pts)? else {
        return Ok(None);
    };
    let parts = &halves.parts;
    if parts.len() < 2 {
        return Ok(None);
    }
    let (pts, shared) = (&pts, &halves.shared);
    let set = Divided { pts, parts, shared };
    let (Marks { stay, runs, .. }, _) = first_marks(alloc, set)?;
    let stay = match marking {
        Marking::Guessed => stay,
        Marking::All => vec![in alloc; true; stay.len()]?,
    };
    let (stay, runs) = (&stay, &runs);
    staying_faces(alloc, set, 0, Guess { stay, runs })
}

#[test]
fn the_first_part_gives_out_its_square(rt: HostRuntime) -> Result<(), Fail> {
    let faces = first_faces(rt.alloc(), Marking::Guessed)?.ok_or("a part that is refused")?;
    let stay = faces.chosen.sorted(rt.alloc())?;
    assert!(rt; are_round(&stay, &CUBE_FACES[..1]) && !faces.others.is_empty());
    Ok(())
}

#[test]
fn facets_that_others_see_do_not_stay(rt: HostRuntime) -> Result<(), Fail> {
    assert!(rt; first_faces(rt.alloc(), Marking::All)?.is_none());
    Ok(())
}

/// Returns the number of ids that are kept of the cube; `None` if its parts lack an id.
fn kept_count(alloc: Global, numbers: &[u32]) -> Result<Option<usize>, Memory> {
    let pts = cube(0, 1);
    let ids = ids_of(alloc, &pts, numbers)?;
    let Some(halves) = halves_of(alloc, &pts)? else {
        return Ok(None);
    };
    let kept = kept_ids(alloc, &ids, &halves.parts, &halves.shared)?;
    Ok(kept.map(|kept| kept.len()))
}

#[test]
fn all_corners_of_the_cube_are_kept(rt: HostRuntime) -> Result<(), Fail> {
    assert_eq!(rt; kept_count(rt.alloc(), &EIGHT)?, Some(8));
    assert_eq!(rt; kept_count(rt.alloc(), &EIGHT[..7])?, None);
    Ok(())
}

/// Returns the hull of the cube from faces of its parts and other polygons; `None` if these do not form the hull.
fn cube_with(
    rt: &impl Host,
    alloc: Global,
    given: &[&[u32]],
    gone: &[&[u32]],
    bridges: &[&[u32]],
) -> Result<Option<Body>, Memory> {
    let pts = cube(0, 1);
    let given = UnsortedFaces::of(alloc, polygons_of(alloc, given)?)?;
    let gone = polygons_of(alloc, gone)?;
    let bridges = polygons_of(alloc, bridges)?;
    let Some(halves) = halves_of(alloc, &pts)? else {
        return Ok(None);
    };
    let Halves { parts, shared } = halves;
    let corners = corners_of(alloc, parts)?;
    let kept = Kept {
        pts: &pts,
        corners: &corners,
        shared: &shared,
    };
    join_faces(rt, alloc, kept, given, &gone, &bridges, 2)
}

#[test]
fn six_faces_are_joined_to_a_cube(rt: HostRuntime) -> Result<(), Fail> {
    let (first, others) = (&CUBE_FACES[..1], &CUBE_FACES[1..]);
    let found = cube_with(&rt, rt.alloc(), first, others, &CUBE_FACES[1..])?;
    let told = found.map(|body| (body.dim, body.extremes.len(), body.edges));
    assert_eq!(rt; told, Some((3, 8, 12)));
    Ok(())
}

#[test]
fn a_gap_is_not_joined(rt: HostRuntime) -> Result<(), Fail> {
    let (first, others) = (&CUBE_FACES[..1], &CUBE_FACES[1..]);
    let open = cube_with(&rt, rt.alloc(), first, others, &CUBE_FACES[2..])?;
    assert!(rt; open.is_none());
    assert!(rt; cube_with(&rt, rt.alloc(), &[], &[], &[])?.is_none());
    Ok(())
}

#[test]
fn halves_of_a_face_are_not_joined(rt: HostRuntime) -> Result<(), Fail> {
    let [square, b, c, d, e, _] = CUBE_FACES;
    let bridges: [&[u32]; 6] = [b, c, d, e, &[4, 6, 7], &[4, 7, 5]];
    let found = cube_with(&rt, rt.alloc(), &[square], &CUBE_FACES[1..], &bridges)?;
    assert!(rt; found.is_none());
    Ok(())
}
