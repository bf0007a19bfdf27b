//! Rows of many sets, with the lists of Geomview's OFF for a tetrahedron and a segment.
use crate::set_hulls::no_sizes;
use crate::{CPoint, DONE, NO_POINT, SetAnswer, Sizes, qconvex_hulls};
use std::alloc::Global;
use std::test::Fail;

/// The extreme points of each set, by their positions in it, and unused room.
const EXTREMES: [u32; 7] = [0, 1, 2, 3, 0, 1, 99];

/// The offsets of the tetrahedron, room for a set without a point, and those of the segment.
const OFFSETS: [usize; 19] = [
    0, 3, 6, 9, 12, 99, 99, 99, 99, 99, 99, 99, 0, 2, 99, 99, 99, 99, 99,
];

/// The corners of the tetrahedron, unused room, and those of the segment.
const CORNERS: [u32; 49] = [
    0, 1, 3, 0, 2, 1, 0, 3, 2, 1, 2, 3, 99, 99, 99, 99, 99, 99, 99, 99, 99, 99, 99, 99, 99, 99, 99,
    99, 99, 99, 99, 99, 0, 1, 99, 99, 99, 99, 99, 99, 99, 99, 99, 99, 99, 99, 99, 99, 99,
];

/// Returns a tetrahedron, and a segment.
fn points() -> [CPoint; 6] {
    points_at![0 0 0, 1 0 0, 0 1 0, 0 0 1, 5 5 5, 3 5 5]
}

/// Returns the codes and the numbers of faces of two sets and an empty set between them, and true if the buffers have
/// the expected contents.
fn hulls_of_sets(alloc: Global) -> ([u32; 4], [usize; 4], bool) {
    let sizes = Sizes {
        faces: 9,
        ..no_sizes()
    };
    let mut answers = [SetAnswer { code: 99, sizes }; 4];
    let (mut extremes, mut offsets, mut corners) = ([99u32; 7], [99usize; 19], [99u32; 49]);
    let code = qconvex_hulls(
        alloc,
        &points(),
        &[0, 4, 4, 6],
        &mut answers,
        &mut extremes,
        &mut offsets,
        &mut corners,
    );
    let are_hulls = code == DONE
        && extremes.as_slice() == EXTREMES.as_slice()
        && offsets.as_slice() == OFFSETS.as_slice()
        && corners.as_slice() == CORNERS.as_slice();
    (
        answers.map(|answer| answer.code),
        answers.map(|answer| answer.sizes.faces),
        are_hulls,
    )
}

#[test]
fn tetrahedron_nothing_and_segment(rt: HostRuntime) -> Result<(), Fail> {
    let (codes, faces, are_hulls) = hulls_of_sets(rt.alloc());
    let holds = are_hulls && codes == [DONE, NO_POINT, DONE, 99] && faces == [4, 0, 1, 9];
    assert!(rt; holds, "{codes:?} {faces:?} {are_hulls}");
    Ok(())
}
