//! Whole texts of both forms.

use super::{Place, TETRAHEDRON, Way, assert_read, assert_read_in_all_ways, joined};
use qh_fixtures::faults::{OF_OFF_FILES, OF_POINT_FILES};
use qh_fixtures::files::{COMMENTED_TETRAHEDRON, CUBE};
use qh_fixtures::table;
use qh_model::Form;
use qh_read::{ReadFault, read_points};
use std::test::Fail;

/// Files with their points.
const READ: [(&str, &[Place]); 18] = table![
    ("3\n1\n5 5 5\n", &[(5, 5, 5)]);
    ("3 2\n0 0 0\n2 2 2\n", &[(0, 0, 0), (2, 2, 2)]);
    ("4 3\n0 0 0\n1 0 0\n0 1 0\n0 0 1\n", &TETRAHEDRON);
    (COMMENTED_TETRAHEDRON, &TETRAHEDRON);
    ("+3 01\n-0 +0 0005\n", &[(0, 0, 5)]); ("3\n1\n007 +7 7\n", &[(7, 7, 7)]); ("3\n1\n-0 +0 000", &[(0, 0, 0)]);
    ("3\n1\n-1048576 1048576 -1\n", &[(-1048576, 1048576, -1)]);
    ("3\n1\n0 0 1048577\n", &[(0, 0, 1048577)]);
    ("3\n1\n-1073741824 1073741824 -1\n", &[(-1073741824, 1073741824, -1)]);
    ("3\n1\n0001073741823 +1073741824 0\n", &[(1073741823, 1073741824, 0)]);
    ("3\n1\n1 x7\n2 #7\n3 (7\n", &[(1, 2, 3)]);
    ("3\n1\n1 *5 6\n2 /5\n3 :5\n", &[(1, 2, 3)]);
    ("3\n1\n5 5\r5\n", &[(5, 5, 5)]); ("3\n1\n5\x0b5\x0c5\n", &[(5, 5, 5)]); ("3\n1\n5\t5\t5\n", &[(5, 5, 5)]);
    ("3\n4\n0 0 0\n1 x 0\n0 1 0\n0 0 1 5 5\n", &[(0, 0, 0), (1, 0, 1), (0, 0, 0), (1, 5, 5)]);
    ("3\n1\n0 0 0 \0 9", &[(0, 0, 0)]);
];

/// OFF files with their vertices. Source: the rows of texts, comments and ignored faces.
const READ_OFF: [(&str, &[Place]); 14] = table![
    ("OFF\n1 1 0\n5 5 5\n1 0\n", &[(5, 5, 5)]);
    ("OFF\n2 1 1\n0 0 0\n2 2 2\n2 0 1\n", &[(0, 0, 0), (2, 2, 2)]);
    ("OFF\n4 1 4\n0 0 0\n2 0 0\n2 2 0\n0 2 0\n4 0 1 2 3\n", &[(0, 0, 0), (2, 0, 0), (2, 2, 0), (0, 2, 0)]);
    ("OFF 1 0 0 # one\n5 5 5", &[(5, 5, 5)]); ("OFF\n1 1 0\n5 5 5\n1 zero\n", &[(5, 5, 5)]);
    ("OFF\n1 0 0\n5 5 5 9 9 9\n", &[(5, 5, 5)]);
    ("#OFF 2\nOFF#1\n1#7 7\n0 0\n5#.5\n5 5", &[(5, 5, 5)]);
    ("OFF\n2 0 0\n1 2 3 # 4 5 6\n7 8 9\n", &[(1, 2, 3), (7, 8, 9)]);
    ("OFF 1 0 0 5\r5\x0b5", &[(5, 5, 5)]);
    ("OFF +1 -7 99999999999 -0 +0 0005", &[(0, 0, 5)]);
    ("OFF\n1 0 0\n-1073741824 1073741824 -1\n", &[(-1073741824, 1073741824, -1)]);
    ("OFF 1 0 0 1 2 3 4 x (", &[(1, 2, 3)]); ("\n\n  OFF\t1 0 0 1 2 3#", &[(1, 2, 3)]);
    ("OFF 1 0 0 1 2 3#4", &[(1, 2, 3)]);
];

/// Words that are not numbers, although they begin as numbers.
const NO_NUMBERS: [&str; 12] =
    table!["7."; ".7"; "7e0"; "2nd"; "+"; "-"; "--7"; "+-7"; "0.5"; "5/"; "5:"; "1,5";];

#[test]
fn reads_files(rt: HostRuntime) {
    for (form, rows) in [(Form::Qhull, READ.as_slice()), (Form::Off, &READ_OFF)] {
        for (text, places) in rows {
            assert_read_in_all_ways(&rt, form, text, Ok(places));
        }
    }
}

#[test]
fn takes_a_byte_that_is_no_text_as_a_comment(rt: HostRuntime) {
    let bytes = b"3\n1\n0 0 0 \xff 9";
    assert_read(&rt, Form::Qhull, bytes, Way::Whole, Ok(&[(0, 0, 0)]));
}

#[test]
fn finds_first_faults(rt: HostRuntime) {
    let of_forms = table![(Form::Qhull, OF_POINT_FILES.as_slice()); (Form::Off, &OF_OFF_FILES);];
    for (form, rows) in of_forms {
        for (fault, _, texts) in rows {
            for text in *texts {
                assert_read_in_all_ways(&rt, form, text, Err(*fault));
            }
        }
    }
}

#[test]
fn refuses_words_that_are_no_numbers(rt: HostRuntime) -> Result<(), Fail> {
    for word in NO_NUMBERS {
        let text = joined(rt.alloc(), &["3\n1\n0\n", word])?;
        let want = Err(ReadFault::BadNumber(4));
        assert_read(&rt, Form::Qhull, &text, Way::Whole, want);
    }
    Ok(())
}

#[test]
fn tells_truncated_files(rt: HostRuntime) {
    for length in 0..53 {
        let want = match length {
            0..3 => Err(ReadFault::NoHeader),
            3..51 => Err(ReadFault::Short),
            _ => Ok(8),
        };
        let points = read_points(rt.alloc(), &CUBE.as_bytes()[..length]);
        assert_eq!(rt; points.map(|points| points.len()), want, "at {length}");
    }
}
