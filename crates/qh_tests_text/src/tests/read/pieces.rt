//! The same bytes in pieces.
use super::{TETRAHEDRON, Way, assert_full, assert_gave, assert_read, feed_times};
use qh_fixtures::files::COMMENTED_TETRAHEDRON;
use qh_model::{BYTE_LIMIT, Form};
use qh_read::{FeedFault, ReadFault, Reader};
use std::alloc::{AllocError, Global};
use std::test::Fail;

#[test]
fn cuts_change_nothing(rt: HostRuntime) {
    let bytes = COMMENTED_TETRAHEDRON.as_bytes();
    for cut in 0..bytes.len() {
        assert_read(&rt, Form::Qhull, bytes, Way::Cut(cut), Ok(&TETRAHEDRON));
    }
}

/// Returns a text with this digit a million times between a beginning and an end.
fn long_word(alloc: Global, front: &[u8], digit: u8, back: &[u8]) -> Result<Vec<u8>, AllocError> {
    let mut bytes = Vec::from_slice(alloc, front)?;
    bytes.extend_from_slice(&Vec::from_elem(alloc, digit, 1000000)?)?;
    bytes.extend_from_slice(back)?;
    Ok(bytes)
}

#[test]
fn tells_long_words_without_keeping_them(rt: HostRuntime) -> Result<(), Fail> {
    let zeros = long_word(rt.alloc(), b"3\n1\n", b'0', b"5 0 0")?;
    let way = Way::Pieces(4096);
    assert_read(&rt, Form::Qhull, &zeros, way, Ok(&[(5, 0, 0)]));
    let nines = long_word(rt.alloc(), b"3\n1\n0 0 ", b'9', b"")?;
    assert_read(&rt, Form::Qhull, &nines, way, Err(ReadFault::Range(3)));
    Ok(())
}

#[test]
fn finds_no_header_in_nothing(rt: HostRuntime) -> Result<(), Fail> {
    for times in 0..3 {
        let mut reader = Reader::new(rt.alloc());
        feed_times(&mut reader, b"", times)?;
        let want = Err(ReadFault::NoHeader);
        assert_gave(&rt, reader.finish(), want, "", Way::Pieces(0));
    }
    Ok(())
}

/// Feeds one point, and blanks up to the greatest number of bytes that a reader accepts.
fn fill(reader: &mut Reader) -> Result<(), FeedFault> {
    let blanks = [b' '; 65536];
    reader.feed(b"3 1 5 5 5 ")?;
    reader.feed(&blanks[10..])?;
    feed_times(reader, &blanks, 4095)
}

#[test]
fn takes_just_the_greatest_length(rt: HostRuntime) -> Result<(), Fail> {
    let mut reader = Reader::new(rt.alloc());
    fill(&mut reader)?;
    assert_full(&rt, &mut reader);
    let way = Way::Pieces(65536);
    assert_gave(&rt, reader.finish(), Ok(&[(5, 5, 5)]), "full", way);
    Ok(())
}

#[test]
fn takes_just_the_greatest_length_of_an_off_file(rt: HostRuntime) -> Result<(), Fail> {
    let blanks = Vec::from_elem(rt.alloc(), b' ', BYTE_LIMIT as usize)?;
    let mut reader = Reader::new_off(rt.alloc());
    reader.feed(&blanks)?;
    assert_full(&rt, &mut reader);
    let (way, want) = (Way::Pieces(blanks.len()), Err(ReadFault::NoHeader));
    assert_gave(&rt, reader.finish(), want, "blanks", way);
    Ok(())
}
