//! A check of the faces of a cube, as Geomview's OFF has them, and of five of them.
use crate::tests::cube;
use crate::told::of_kind;
use crate::{DONE, OPEN, OTHERS, RIGHT, Verdict, qconvex_check};
use std::alloc::Global;
use std::test::Fail;

/// The offsets of six faces of four corners each.
const OFFSETS: [usize; 7] = [0, 4, 8, 12, 16, 20, 24];

/// The corners of these faces, in a different order, each face from any of its corners on.
const CORNERS: [u32; 24] = [
    6, 7, 5, 4, 3, 2, 0, 1, 1, 5, 7, 3, 4, 0, 2, 6, 2, 3, 7, 6, 5, 1, 0, 4,
];

/// Returns the answer for faces of a cube, with the kind of the verdict.
fn told(alloc: Global, offsets: &[usize], corners: &[u32]) -> (u32, u32) {
    let mut verdict = of_kind(99);
    let code = qconvex_check(alloc, &cube(), offsets, corners, &mut verdict);
    (code, verdict.kind)
}

#[test]
fn faces_of_a_cube(rt: HostRuntime) -> Result<(), Fail> {
    let right = told(rt.alloc(), &OFFSETS, &CORNERS);
    assert_eq!(rt; right, (DONE, RIGHT));
    let open = told(rt.alloc(), &OFFSETS[..6], &CORNERS);
    assert_eq!(rt; open, (DONE, OPEN));
    Ok(())
}

#[test]
fn no_faces(rt: HostRuntime) -> Result<(), Fail> {
    let none = told(rt.alloc(), &OFFSETS[..1], &CORNERS[..0]);
    assert_eq!(rt; none, (DONE, OTHERS));
    Ok(())
}

/// C accesses a field by its offset alone. `Debug` writes the fields in the order of their offsets.
#[test]
fn verdict_as_in_the_header(rt: HostRuntime) -> Result<(), Fail> {
    let verdict = Verdict {
        face: 5,
        to: 4,
        from: 3,
        point: 2,
        kind: 1,
    };
    let text = format!(in rt.alloc(); "{verdict:?}")?;
    assert_eq!(rt;
        text.as_str(),
        "Verdict { kind: 1, point: 2, from: 3, to: 4, face: 5 }"
    );
    assert_eq!(rt; size_of::<Verdict>(), 24usize);
    Ok(())
}
