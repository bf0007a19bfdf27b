//! The order of faces, of a solid and of runs of faces: first the triangles that have keys, rising, then the other
//! polygons, rising by their first three ids. Only the text of `Debug` shows the order of a run.
use super::{Row, is};
use qh_block::hull;
use qh_bodies::UnsortedFaces;
use qh_fixtures::faces::{are_round, polygons_of};
use qh_fixtures::ids::{are, ids_of};
use qh_fixtures::{faces_of, points_at};
use qh_model::{Memory, Point};
use std::alloc::{AllocError, Global};
use std::test::Fail;

/// Returns the corners of a cuboctahedron, around each of which triangles and squares alternate. Some of its triangles
/// have only ids below 2^21, others do not.
fn corners() -> [Point; 12] {
    points_at![
        0 -1 1, 1 0 -1, 0 -1 -1, -1 1 0, 0 1 -1, 1 0 1, 1 1 0, -1 0 -1, 1 -1 0, -1 0 1, 0 1 1,
        -1 -1 0
    ]
}

/// Its hull: a square across each end of an axis, and a triangle in each octant, the faces in lexicographic order.
const CUBOCTAHEDRON: Row<'static> = row![
    3; 2 3 4 5 6 7 8 9 2097151 2097152 2097153 2097154;
    2 7 2097153 2097152, 2 2097151 7, 2 2097152 2097154, 2 2097154 4 2097151, 3 4 9 6, 3 6 8,
    3 8 7 2097151, 3 2097151 4, 4 2097154 9, 5 6 9, 5 9 2097154 2097152, 5 2097152 2097153,
    5 2097153 8 6, 7 8 2097153; 24
];

/// Returns the points up to the last corner: where there is no corner, the centre.
fn points(alloc: Global) -> Result<Vec<Point>, AllocError> {
    let mut pts = vec![in alloc; Point::new(0, 0, 0); 2097155]?;
    for (number, corner) in CUBOCTAHEDRON.extremes.iter().zip(&corners()) {
        if let Some(place) = pts.get_mut(*number as usize) {
            *place = *corner;
        }
    }
    Ok(pts)
}

#[test]
fn triangles_and_squares(rt: HostRuntime) -> Result<(), Fail> {
    let pts = points(rt.alloc())?;
    let ids = ids_of(rt.alloc(), &pts, CUBOCTAHEDRON.extremes)?;
    if ids.is_empty() {
        return Err("no corners".into());
    }
    let body = hull(rt.alloc(), &pts, &ids)?;
    assert!(rt; is(&body, &CUBOCTAHEDRON), "{body:?}");
    Ok(())
}

#[test]
fn faces_are_sorted_beside_their_tally(rt: HostRuntime) -> Result<(), Fail> {
    let faces = polygons_of(rt.alloc(), CUBOCTAHEDRON.faces)?;
    let faces = UnsortedFaces::of(rt.alloc(), faces)?;
    let (polygons, tally, told) = faces.sorted_beside(&rt, rt.alloc(), || 3)?;
    let holds = are_round(&polygons, CUBOCTAHEDRON.faces)
        && are(&tally.extremes, CUBOCTAHEDRON.extremes);
    assert!(rt; holds, "{polygons:?}");
    assert_eq!(rt; tally.edges, CUBOCTAHEDRON.edges);
    assert_eq!(rt; told, 3);
    Ok(())
}

/// Faces in rising order: first triangles of ids below 2^21, then others.
const RISING: [&[u32]; 9] = faces_of![
    1 3 2, 1 2097151 2, 2 1 2097151, 2 4 3, 0 9 8 7, 1 2 3 6 5, 1 2 2097152, 1 4 2 3,
    2097152 2097154 2097153
];

/// The same faces in another order.
const MIXED: [&[u32]; 9] = faces_of![
    1 2 2097152, 2 4 3, 1 4 2 3, 1 3 2, 2097152 2097154 2097153, 0 9 8 7, 2 1 2097151, 1 2 3 6 5,
    1 2097151 2
];

/// Returns faces, added one by one in the order of the list.
fn added(alloc: Global, faces: &[&[u32]]) -> Result<UnsortedFaces, Memory> {
    let mut all = UnsortedFaces::none(alloc);
    for face in faces.chunks(1) {
        all = all.and(UnsortedFaces::of(alloc, polygons_of(alloc, face)?)?)?;
    }
    Ok(all)
}

/// Returns the text of faces.
fn text_of(alloc: Global, faces: &UnsortedFaces) -> Result<String, AllocError> {
    format!(in alloc; "{faces:?}")
}

#[test]
fn runs_rise(rt: HostRuntime) -> Result<(), Fail> {
    let rising = text_of(rt.alloc(), &added(rt.alloc(), &RISING)?)?;
    let run = added(rt.alloc(), &MIXED)?.as_run();
    for faces in [run, added(rt.alloc(), &MIXED)?.merged()?] {
        let text = text_of(rt.alloc(), &faces)?;
        assert_eq!(rt; text.as_str(), rising.as_str());
    }
    Ok(())
}
