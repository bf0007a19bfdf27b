//! Worked rows: a cube and a square, with the faults of claims about their faces, surfaces of a cube in pieces and of
//! an octahedron, and faces of a tetrahedron with the judgements on them.
use qh_check::convex::is_sharp_surface;
use qh_check::{
    ClaimedPolygons, FaceFault, Judgement, SurfaceVerdict, check_surface, judge_faces,
    judge_faces_alone,
};
use qh_fixtures::faces::{CUBE_FACES, polygons_of};
use qh_fixtures::ids::{EIGHT, ids_of};
use qh_fixtures::points::cube;
use qh_fixtures::{Host, faces_of, points_at};
use qh_model::{Id, Memory, Point};
use std::alloc::Global;
use std::test::Fail;

/// The twelve triangles of a cube, as Qhull writes them, in reverse orientation.
const TRIANGLES: [&[u32]; 12] = faces_of![
    0 2 6, 0 6 4, 0 4 5, 0 5 1, 4 6 5, 7 5 6, 0 3 2, 0 1 3, 2 3 6, 7 6 3, 1 5 3, 7 3 5
];

/// The faces of a cube in any order, each from any corner.
const TURNED_FACES: [&[u32]; 6] = faces_of![6 7 5 4, 3 2 0 1, 1 5 7 3, 4 0 2 6, 2 3 7 6, 5 1 0 4];

/// Returns the id that represents, in a row, any id that a verdict names.
fn any() -> Id {
    Id::new(0)
}

/// Returns the verdict that the polygon at a position has points above it.
fn above(position: usize) -> SurfaceVerdict {
    SurfaceVerdict::NoPiece(position, FaceFault::Above(any()))
}

/// Returns a verdict with each id that it names replaced by `any`.
fn unnamed(verdict: SurfaceVerdict) -> SurfaceVerdict {
    match verdict {
        SurfaceVerdict::Open(_, _) => SurfaceVerdict::Open(any(), any()),
        SurfaceVerdict::Twice(_, _) => SurfaceVerdict::Twice(any(), any()),
        SurfaceVerdict::NoPiece(position, FaceFault::Above(_)) => above(position),
        told => told,
    }
}

/// A verdict; `None` if there are no ids.
type Told = Option<SurfaceVerdict>;

/// Returns the verdict on polygons of some corners of a cube.
fn verdict(alloc: Global, numbers: &[u32], faces: &[&[u32]]) -> Result<Told, Memory> {
    let pts = cube(0, 1);
    let ids = ids_of(alloc, &pts, numbers)?;
    if ids.is_empty() {
        return Ok(None);
    }
    let polygons = polygons_of(alloc, faces)?;
    let (pts, ids, polygons) = (&pts, &ids, &polygons);
    let told = check_surface(alloc, ClaimedPolygons { pts, ids, polygons })?;
    Ok(Some(unnamed(told)))
}

/// Asserts the verdict on polygons of some corners of a cube.
fn assert_told(rt: &impl Host, ids: &[u32], faces: &[&[u32]], wanted: Told) -> Result<(), Fail> {
    let told = verdict(rt.alloc(), ids, faces)?;
    assert_eq!(rt; told, wanted, "{faces:?} of {ids:?}");
    Ok(())
}

/// Asserts the verdict on polygons of all corners of a cube.
fn assert_verdict(rt: &impl Host, faces: &[&[u32]], wanted: SurfaceVerdict) -> Result<(), Fail> {
    assert_told(rt, &EIGHT, faces, Some(wanted))
}

#[test]
fn surfaces_of_a_cube(rt: HostRuntime) -> Result<(), Fail> {
    assert_verdict(&rt, &CUBE_FACES, SurfaceVerdict::Right)?;
    assert_verdict(&rt, &TRIANGLES, SurfaceVerdict::Right)?;
    assert_verdict(&rt, &TURNED_FACES, SurfaceVerdict::Right)
}

#[test]
fn polygons_that_are_no_pieces(rt: HostRuntime) -> Result<(), Fail> {
    // A triangle seen from inside, a face that returns to one of its corners, and two corners.
    let [inward, back, edge]: [&[u32]; 3] = faces_of![0 6 2, 0 1 3 2 1, 0 1];
    let other_face = SurfaceVerdict::NoPiece(0, FaceFault::OtherFace);
    let no_plane = SurfaceVerdict::NoPiece(0, FaceFault::NoPlane);
    for (face, wanted) in [(inward, above(0)), (back, other_face), (edge, no_plane)] {
        assert_verdict(&rt, &[face], wanted)?;
    }
    let no_plane = SurfaceVerdict::NoPiece(0, FaceFault::NoPlane);
    let seven = [0, 1, 2, 4, 5, 6, 7];
    assert_told(&rt, &seven, &CUBE_FACES[..1], Some(no_plane))
}

#[test]
fn the_third_polygon_is_named(rt: HostRuntime) -> Result<(), Fail> {
    let [a, b, c, d, e, f] = CUBE_FACES;
    let seen_from_inside: [&[u32]; 6] = [a, c, &[0, 4, 6, 2], d, e, f];
    assert_verdict(&rt, &seen_from_inside, above(2))?;
    let past_an_edge: [&[u32]; 6] = [a, b, &[0, 1, 2, 6], d, e, f];
    let told = verdict(rt.alloc(), &EIGHT, &past_an_edge)?;
    let is_third = matches!(told, Some(SurfaceVerdict::NoPiece(2, _)));
    assert!(rt; is_third, "{told:?}");
    Ok(())
}

#[test]
fn a_square_has_one_polygon(rt: HostRuntime) -> Result<(), Fail> {
    let square: [&[u32]; 1] = [&[0, 2, 3, 1]];
    assert_told(&rt, &EIGHT[..4], &square, Some(SurfaceVerdict::Right))?;
    let other = Some(SurfaceVerdict::OtherPolygons);
    assert_told(&rt, &EIGHT[..4], &CUBE_FACES[..1], other)
}

/// The faces of a cube, each given twice.
const EACH_TWICE: [&[u32]; 12] = faces_of![
    0 1 3 2, 0 1 3 2, 0 2 6 4, 0 2 6 4, 0 4 5 1, 0 4 5 1, 1 5 7 3, 1 5 7 3, 2 3 7 6, 2 3 7 6, 4 6 7 5, 4 6 7 5
];

#[test]
fn pieces_that_are_no_surface(rt: HostRuntime) -> Result<(), Fail> {
    assert_verdict(&rt, &TRIANGLES[1..], SurfaceVerdict::Open(any(), any()))?;
    assert_verdict(&rt, &CUBE_FACES[..5], SurfaceVerdict::Open(any(), any()))?;
    assert_verdict(&rt, &EACH_TWICE, SurfaceVerdict::Twice(any(), any()))?;
    assert_verdict(&rt, &CUBE_FACES[..0], SurfaceVerdict::OtherPolygons)
}

#[test]
fn a_verdict_has_a_line(rt: HostRuntime) -> Result<(), Fail> {
    let told = SurfaceVerdict::NoPiece(3, FaceFault::OtherFace).to_string(rt.alloc())?;
    let line = "face 3: the polygon of its plane is another";
    assert_eq!(rt; told.as_str(), line);
    Ok(())
}

/// The faces of the octahedron, in any order, each from any corner.
const OCTAHEDRON_FACES: [&[u32]; 8] =
    faces_of![0 1 2, 1 3 2, 2 3 4, 0 2 4, 1 0 5, 5 3 1, 4 3 5, 0 4 5];

/// Returns the corners of an octahedron, its middle, and a point below a face.
fn octahedron() -> [Point; 8] {
    points_at![9 0 0, 0 9 0, 0 0 9, -9 0 0, 0 -9 0, 0 0 -9, 0 0 0, 2 2 2]
}

/// Returns true if faces of eight points are verified to be a surface with an angle at each edge.
fn is_sharp(alloc: Global, pts: &[Point; 8], faces: &[&[u32]]) -> Result<bool, Memory> {
    let ids = ids_of(alloc, pts, &EIGHT)?;
    is_sharp_surface(alloc, pts, &ids, &polygons_of(alloc, faces)?)
}

#[test]
fn octahedron_is_sharp_and_cube_is_not(rt: HostRuntime) -> Result<(), Fail> {
    let alloc = rt.alloc();
    let [a, b, c, d, e, f, g, _] = OCTAHEDRON_FACES;
    let turned: [&[u32]; 8] = [a, b, c, d, e, f, g, &[0, 5, 4]];
    let again = [a, b, c, d, e, f, g, g];
    assert!(rt; is_sharp(alloc, &octahedron(), &OCTAHEDRON_FACES)?);
    assert!(rt; !is_sharp(alloc, &octahedron(), &turned)?);
    assert!(rt; !is_sharp(alloc, &octahedron(), &again)?);
    assert!(rt; !is_sharp(alloc, &cube(-9, 9), &TRIANGLES)?);
    Ok(())
}

/// The faces of the tetrahedron, one of whose corners is named by both of its indices.
const NAMED_TWICE: [&[u32]; 4] = faces_of![0 2 4, 0 1 3, 0 3 2, 4 2 3];

#[test]
fn corners_may_be_named_by_a_later_index(rt: HostRuntime) -> Result<(), Fail> {
    let faces = polygons_of(rt.alloc(), &NAMED_TWICE)?;
    // The corners of a tetrahedron, one of them twice.
    let pts = points_at![0 0 0, 1 0 0, 0 1 0, 0 0 1, 1 0 0];
    let told = judge_faces(&rt, rt.alloc(), &pts, &pts, &faces, 1);
    let alone = judge_faces_alone(rt.alloc(), &pts, &pts, &faces);
    for told in [told, alone] {
        assert!(rt; matches!(told, Ok(Judgement::Told(SurfaceVerdict::Right))));
    }
    Ok(())
}
