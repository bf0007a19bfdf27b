//! Cuts during which one allocation fails: the cut is right, or the call is out of memory and returns the right cut
//! when it is repeated. `scripts/trials/refusals.py` makes each allocation fail in turn.
use super::{Answer, assert_cut};
use qh_fixtures::again;
use qh_model::{Cut, CutError, POINT_LIMIT};

/// The number of points and the size of a block, with the result of the even cut.
const CUTS: [(u32, u32, Answer); 3] = [
    (5, 2, Ok((3, (0, 2), (4, 5)))),
    (8, 3, Ok((3, (0, 3), (6, 8)))),
    (18, 3, Ok((6, (0, 3), (15, 18)))),
];

#[test]
fn tries_again(rt: HostRuntime) {
    for (m, size, want) in CUTS {
        let m = m.clamp(1, POINT_LIMIT);
        let cut = again!(Cut::even(rt.alloc(), m, size), CutError::Memory);
        assert_cut(&rt, cut, want, &[m, size]);
    }
}
