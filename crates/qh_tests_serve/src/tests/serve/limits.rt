//! Inputs of the greatest length that is accepted, and of one byte more, inputs that are truncated, words without end,
//! and bytes that are not a text.
use super::{assert_answered, assert_gives};
use crate::tests::outcomes::{OFF, RANK};
use qh_fixtures::files::{CUBE, CUBE_OFF, ONE_POINT};
use std::alloc::{AllocError, Global};
use std::test::Fail;

/// One byte more than the limit of an input.
const TOO_MANY: usize = 268435457;

/// Returns a text, followed by blanks up to one byte more than the limit of an input.
fn too_long(alloc: Global, text: &[u8]) -> Result<Vec<u8>, AllocError> {
    let mut bytes = Vec::from_elem(alloc, b' ', TOO_MANY)?;
    for (byte, of_text) in bytes.iter_mut().zip(text) {
        *byte = *of_text;
    }
    Ok(bytes)
}

#[test]
fn takes_just_as_many_bytes_as_there_may_be(rt: HostRuntime) -> Result<(), Fail> {
    let mut bytes = too_long(rt.alloc(), ONE_POINT.as_bytes())?;
    assert_answered(&rt, RANK, &bytes, ("", "qconvex: 10: Big", 1))?;
    let _blank = bytes.pop();
    assert_answered(&rt, RANK, &bytes, ("1 1 0\n", "", 0))
}

#[test]
fn is_too_big_before_all_other_faults(rt: HostRuntime) -> Result<(), Fail> {
    let bytes = too_long(rt.alloc(), b"3\n1\n0.5\n")?;
    assert_answered(&rt, RANK, &bytes, ("", "qconvex: 10: Big", 1))
}

#[test]
fn tells_truncated_files(rt: HostRuntime) -> Result<(), Fail> {
    let all = CUBE.as_bytes();
    assert_eq!(rt; all.len(), 52);
    for length in 0..53usize {
        let want = match length {
            0..3 => ("", "qconvex: 1: NoHeader", 1),
            3..51 => ("", "qconvex: 7: Short", 1),
            _ => (CUBE_OFF, "", 0),
        };
        assert_gives(&rt, OFF, &all[..length], want)?;
    }
    Ok(())
}

#[test]
fn tells_a_million_nines(rt: HostRuntime) -> Result<(), Fail> {
    let mut input = Vec::from_slice(rt.alloc(), b"3\n1\n0 0 ")?;
    input.extend_from_slice(&Vec::from_elem(rt.alloc(), b'9', 1000000)?)?;
    assert_gives(&rt, RANK, &input, ("", "qconvex: 5: Range at line 3", 1))
}

#[test]
fn takes_a_byte_that_is_no_text_as_a_comment(rt: HostRuntime) -> Result<(), Fail> {
    assert_gives(&rt, RANK, b"3\n1\n0 0 0 \xff 9", ("1 1 0\n", "", 0))
}
