//! Rows with expected values from outside: the lists of Geomview's OFF for a cube and a point, the neighbours of each face
//! of a tetrahedron and of two triangles with one side in common, and the volume of a corner of a cube.
use crate::set_hulls::no_sizes;
use crate::{
    CPoint, DONE, NONE, Sizes, Wide, qconvex_fans, qconvex_hull, qconvex_neighbors,
    qconvex_six_volumes,
};
use std::alloc::Global;
use std::test::Fail;

/// Returns the corners of a cube, in rising order of their coordinates, and the first one twice.
pub(crate) fn cube() -> [CPoint; 9] {
    points_at![0 0 0, 0 0 1, 0 1 0, 0 1 1, 1 0 0, 1 0 1, 1 1 0, 1 1 1, 0 0 0]
}

/// The extreme points of the cube, and unused room.
const EXTREMES: [u32; 9] = [0, 1, 2, 3, 4, 5, 6, 7, 99];

/// The offsets at which its faces begin and end, and unused room.
const OFFSETS: [usize; 8] = [0, 4, 8, 12, 16, 20, 24, 99];

/// The corners of its faces, and unused room.
const CORNERS: [u32; 25] = [
    0, 1, 3, 2, 0, 2, 6, 4, 0, 4, 5, 1, 1, 5, 7, 3, 2, 3, 7, 6, 4, 6, 7, 5, 99,
];

/// Returns the sizes of the hull of the cube, and true if its buffers have the expected contents.
fn hull_of_cube(alloc: Global) -> (Sizes, bool) {
    let mut sizes = no_sizes();
    let (mut extremes, mut offsets, mut corners) = ([99u32; 9], [99usize; 8], [99u32; 25]);
    let code = qconvex_hull(
        alloc,
        &cube(),
        &mut sizes,
        &mut extremes,
        &mut offsets,
        &mut corners,
    );
    let is_hull = code == DONE
        && extremes.as_slice() == EXTREMES.as_slice()
        && offsets.as_slice() == OFFSETS.as_slice()
        && corners.as_slice() == CORNERS.as_slice();
    (sizes, is_hull)
}

#[test]
fn unit_cube(rt: HostRuntime) -> Result<(), Fail> {
    let (sizes, is_hull) = hull_of_cube(rt.alloc());
    let text = format!(in rt.alloc(); "{sizes:?} {is_hull}")?;
    assert_eq!(rt;
        text.as_str(),
        "Sizes { points: 9, distinct: 8, dimension: 3, extremes: 8, faces: 6, corners: 24, edges: 12 } true"
    );
    Ok(())
}

/// The corners of the fans of a pyramid, and unused room.
const FANS: [u32; 19] = [0, 1, 4, 0, 3, 2, 0, 2, 1, 0, 4, 3, 1, 2, 4, 2, 3, 4, 99];

/// The normals of these fans, and unused room.
const NORMALS: [i64; 19] = [0, -2, 0, 0, 0, -4, 0, 0, -4, -2, 0, 0, 2, 0, 4, 0, 2, 4, 99];

/// Returns the number of triangles of a pyramid, and true if its buffers have the expected contents.
fn fans_of_pyramid(alloc: Global) -> (usize, bool) {
    let pyramid = points_at![0 0 0, 2 0 0, 2 2 0, 0 2 0, 0 0 1];
    let mut count = 0usize;
    let (mut triangles, mut normals) = ([99u32; 19], [99i64; 19]);
    let code = qconvex_fans(alloc, &pyramid, &mut count, &mut triangles, &mut normals);
    let are_fans = code == DONE
        && triangles.as_slice() == FANS.as_slice()
        && normals.as_slice() == NORMALS.as_slice();
    (count, are_fans)
}

#[test]
fn fans_of_a_pyramid(rt: HostRuntime) -> Result<(), Fail> {
    let told = fans_of_pyramid(rt.alloc());
    assert_eq!(rt; told, (6usize, true));
    Ok(())
}

/// C accesses a field by its offset alone. `Debug` writes the fields in the order of their offsets.
#[test]
fn fields_as_in_the_header(rt: HostRuntime) -> Result<(), Fail> {
    let sizes = Sizes {
        edges: 7,
        corners: 6,
        faces: 5,
        extremes: 4,
        dimension: 3,
        distinct: 2,
        points: 1,
    };
    let text = format!(in rt.alloc(); "{sizes:?}")?;
    assert_eq!(rt;
        text.as_str(),
        "Sizes { points: 1, distinct: 2, dimension: 3, extremes: 4, faces: 5, corners: 6, edges: 7 }"
    );
    let text = format!(in rt.alloc(); "{:?}", CPoint::new(1, 2, 3))?;
    assert_eq!(rt; text.as_str(), "CPoint { x: 1, y: 2, z: 3 }");
    assert_eq!(rt;
        (size_of::<Sizes>(), size_of::<CPoint>()),
        (48usize, 12usize)
    );
    Ok(())
}

/// Returns the code for the neighbours of triangles, and true if the buffer has the expected contents.
fn neighbors_told(alloc: Global, triangles: &[u32], expected: &[u32; 14]) -> (u32, bool) {
    let mut neighbors = [99u32; 14];
    let code = qconvex_neighbors(alloc, triangles, &mut neighbors);
    (code, neighbors.as_slice() == expected.as_slice())
}

#[test]
fn neighbors_of_a_tetrahedron(rt: HostRuntime) -> Result<(), Fail> {
    let outward = [0u32, 2, 1, 0, 1, 3, 0, 3, 2, 1, 2, 3];
    let expected = [3u32, 1, 2, 3, 2, 0, 3, 0, 1, 2, 1, 0, 99, 99];
    assert_eq!(rt;
        neighbors_told(rt.alloc(), &outward, &expected),
        (DONE, true)
    );
    Ok(())
}

#[test]
fn neighbors_of_two_triangles(rt: HostRuntime) -> Result<(), Fail> {
    let square = [0u32, 1, 2, 0, 2, 3, 7, 7];
    let mut expected = [99u32; 14];
    expected[..6].copy_from_slice(&[NONE, 1, NONE, NONE, NONE, 0]);
    assert_eq!(rt;
        neighbors_told(rt.alloc(), &square, &expected),
        (DONE, true)
    );
    Ok(())
}

/// The tetrahedron of the origin and the unit vectors has a sixth of the unit cube's volume.
#[test]
fn volume_of_the_corner_of_a_cube(rt: HostRuntime) -> Result<(), Fail> {
    let points = points_at![0 0 0, 1 0 0, 0 1 0, 0 0 1];
    let mut volume = Wide { low: 9, high: 9 };
    let outward = [0u32, 2, 1, 0, 1, 3, 0, 3, 2, 1, 2, 3];
    let code = qconvex_six_volumes(&points, &outward, &mut volume);
    assert_eq!(rt; (code, volume.low, volume.high), (DONE, 1u64, 0u64));
    Ok(())
}

/// C accesses a field by its offset alone. `Debug` writes the fields in the order of their offsets.
#[test]
fn wide_as_in_the_header(rt: HostRuntime) -> Result<(), Fail> {
    let text = format!(in rt.alloc(); "{:?}", Wide { high: 2, low: 1 })?;
    assert_eq!(rt; text.as_str(), "Wide { low: 1, high: 2 }");
    assert_eq!(rt; size_of::<Wide>(), 16usize);
    Ok(())
}
