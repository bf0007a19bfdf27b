//! Rows of cuts.

use qh_fixtures::Host;
use qh_model::{BLOCK_LIMIT, Cut, CutError, POINT_LIMIT};
use std::alloc::AllocError;

mod refusals;

/// The result of a cut: the number of its blocks and the bounds of the first and of the last block, or its error.
type Answer = Result<(u32, (u32, u32), (u32, u32)), CutError>;

/// Returns the result of a cut.
fn ends(cut: Result<Cut, CutError>) -> Answer {
    let cut = cut?;
    let blocks = cut.blocks();
    Ok((blocks, cut.block(0), cut.block(blocks - 1)))
}

/// Asserts the result of a cut. A failure names the row.
fn assert_cut(rt: &impl Host, cut: Result<Cut, CutError>, want: Answer, row: &[u32]) {
    assert_eq!(rt; ends(cut), want, "{row:?}");
}

/// Returns the cut with these bounds.
fn from(bounds: Result<Vec<u32>, AllocError>) -> Result<Cut, CutError> {
    Cut::from_bounds(bounds.map_err(|_| CutError::Memory)?)
}

/// The number of points and the size of a block, with the result of the even cut.
const EVEN: [(u32, u32, Answer); 5] = [
    (7, 3, Ok((3, (0, 3), (6, 7)))),
    (5, 9, Ok((1, (0, 5), (0, 5)))),
    (1048576, 16, Ok((65536, (0, 16), (1048560, 1048576)))),
    (1048576, 15, Err(CutError::TooManyBlocks)),
    (5, 0, Err(CutError::ZeroSize)),
];

#[test]
fn even_cuts(rt: HostRuntime) {
    for (m, size, want) in EVEN {
        let cut = Cut::even(rt.alloc(), m.clamp(1, POINT_LIMIT), size);
        assert_cut(&rt, cut, want, &[m, size]);
    }
}

/// Bounds with the result of their cut.
const GIVEN: [(&[u32], Answer); 5] = [
    (&[0, 2, 3], Ok((2, (0, 2), (2, 3)))),
    (&[0, 2, 2], Err(CutError::BadBounds)),
    (&[0], Err(CutError::BadBounds)),
    (&[1, 5], Err(CutError::BadBounds)),
    (&[0, POINT_LIMIT + 1], Err(CutError::BadBounds)),
];

#[test]
fn given_bounds(rt: HostRuntime) {
    for (bounds, want) in GIVEN {
        assert_cut(&rt, from(Vec::from_slice(rt.alloc(), bounds)), want, bounds);
    }
}

#[test]
fn too_many_bounds(rt: HostRuntime) {
    let cut = from((0..BLOCK_LIMIT + 2).collect(rt.alloc()));
    assert_cut(&rt, cut, Err(CutError::TooManyBlocks), &[BLOCK_LIMIT + 2]);
}
