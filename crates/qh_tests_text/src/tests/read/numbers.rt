//! The limits of numbers that are parsed as a whole: in both forms, with many bytes after them or few.

use super::{Place, Wanted, Way, assert_gave, assert_read, joined};
use qh_fixtures::{Host, table};
use qh_model::Form;
use qh_read::{FeedFault, ReadFault, Reader};
use std::alloc::{AllocError, Global};
use std::test::Fail;

/// More bytes than the fast path for a point requires.
const BLANKS: &str = "                                                                ";

/// The heads of files of two points in both forms, of two lines each.
const HEADS: [(Form, &str); 2] = [(Form::Qhull, "3\n2\n"), (Form::Off, "OFF\n2 0 0\n")];

/// Texts that may follow a head, each with the two points.
const READ: [(&str, &[Place]); 12] = table![
    ("1234567 -12345678 123456789\n-987654321 +99999999 0000000\n", &[(1234567, -12345678, 123456789), (-987654321, 99999999, 0)]);
    ("999999999 -999999999 +999999999\n1000000000 -1000000000 +1000000000\n", &[
        (999999999, -999999999, 999999999), (1000000000, -1000000000, 1000000000),
    ]);
    ("1073741824 -1073741824 0\n1073741823 -1073741823 0\n", &[(1073741824, -1073741824, 0), (1073741823, -1073741823, 0)]);
    ("000000012 0000000034 00000000056\n-000000012 -0000000034 -00000000056\n", &[(12, 34, 56), (-12, -34, -56)]);
    ("+1 -2 +3\n-0 +0 -00\n", &[(1, -2, 3), (0, 0, 0)]);
    ("1\t2\t3\r\n4\x0b5\x0c6\r\n", &[(1, 2, 3), (4, 5, 6)]);
    ("  1  22   333\r\n\r\n\n  4444\t 55555 \t666666 \n", &[(1, 22, 333), (4444, 55555, 666666)]);
    ("1 2 3 4 5 6", &[(1, 2, 3), (4, 5, 6)]); ("1\n2\n3\n4\n5\n6\n", &[(1, 2, 3), (4, 5, 6)]);
    ("1 2\n3 4\n5\r6\n", &[(1, 2, 3), (4, 5, 6)]);
    ("1 2 3 # 4 5\n6 7 # 8\n9 #", &[(1, 2, 3), (6, 7, 9)]);
    ("# 1\n2 3 # 4\n5 6\n7 #\n\n8\n", &[(2, 3, 5), (6, 7, 8)]);
];

/// Texts that may follow a head, by their first fault in both forms.
const REFUSED: [(ReadFault, &[&str]); 6] = table![
    (ReadFault::Range(4), &["1 2 3\n4 5 1073741825\n", "1 2 3\n-1073741825 5 6\n", "1 2 3\n4 9999999999 6\n"]);
    (ReadFault::Range(3), &[
        "1 2 10737418240\n4 5 6\n", "4294967297 2 3\n4 5 6\n", "1 -18446744073709551617 3\n4 5 6\n",
    ]);
    (ReadFault::BadNumber(6), &["1 2 3\r\n\r\n4\n5.5 6\n"]);
    (ReadFault::BadNumber(4), &["1 2 3\n4 - 6\n", "1 2 3\n+-4 5 6\n", "1 2 3\n4 5 6/7\n"]);
    (ReadFault::BadNumber(3), &[
        "1 2-3 3\n4 5 6\n", "1 2 3a\n4 5 6\n", "1 2 3:4 5 6\n", "123456789 123456789 123456789.\n4 5 6\n",
    ]);
    (ReadFault::Short, &["1 2 3\n4 5\n"]);
];

/// Asserts the result for a body after each head, for each position at which they are cut in two.
fn assert_cut(rt: &impl Host, body: &str, want: Wanted) -> Result<(), AllocError> {
    for (form, head) in HEADS {
        let text = joined(rt.alloc(), &[head, body, BLANKS])?;
        for cut in 0..text.len() {
            assert_read(rt, form, &text, Way::Cut(cut), want);
        }
    }
    Ok(())
}

#[test]
fn reads_points_at_once(rt: HostRuntime) -> Result<(), Fail> {
    for (body, places) in READ {
        assert_cut(&rt, body, Ok(places))?;
    }
    Ok(())
}

#[test]
fn finds_faults_after_points_at_once(rt: HostRuntime) -> Result<(), Fail> {
    for (fault, bodies) in REFUSED {
        for body in bodies {
            assert_cut(&rt, body, Err(fault))?;
        }
    }
    Ok(())
}

/// Returns a file of 400 points, half of which share their lines with words that are not numbers, and its points.
fn long_file(alloc: Global) -> Result<(Vec<u8>, Vec<Place>), AllocError> {
    let mut text = Vec::from_slice(alloc, b"3\n400\n")?;
    let mut places = Vec::new(alloc);
    for _ in 0..200 {
        text.extend_from_slice(b"1 -22 +333\r\n\n4444\t-55555  666666 seven 8\n")?;
        places.extend_from_slice(&[(1, -22, 333), (4444, -55555, 666666)])?;
    }
    Ok((text, places))
}

#[test]
fn tells_long_files_and_their_lines(rt: HostRuntime) -> Result<(), Fail> {
    let (mut text, places) = long_file(rt.alloc())?;
    assert_read(&rt, Form::Qhull, &text, Way::Whole, Ok(&places));
    text.extend_from_slice(b"9 9 9\n")?;
    let want = Err(ReadFault::Long(603));
    assert_read(&rt, Form::Qhull, &text, Way::Whole, want);
    Ok(())
}

/// Feeds a point after sixteen million blanks and line ends.
fn feed_late_point(reader: &mut Reader) -> Result<(), FeedFault> {
    let (blanks, lines) = ([b' '; 65536], [b'\n'; 65536]);
    reader.feed(b"3 1 ")?;
    for _ in 0..128 {
        reader.feed(&blanks)?;
        reader.feed(&lines)?;
    }
    reader.feed(b"5 5 5")
}

/// If the blanks were scanned again for each byte, sixteen million of them would take hours.
#[test]
fn goes_over_blanks_before_a_point_once(rt: HostRuntime) -> Result<(), Fail> {
    let mut reader = Reader::new(rt.alloc());
    feed_late_point(&mut reader)?;
    let way = Way::Pieces(65536);
    assert_gave(&rt, reader.finish(), Ok(&[(5, 5, 5)]), "after blanks", way);
    Ok(())
}
