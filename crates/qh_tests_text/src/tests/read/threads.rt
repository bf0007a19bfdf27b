//! Texts read by several threads, in batches and segments of a few bytes.
//!
//! A segment contains points only after the end of its first line, and only from numbers that are followed by eleven
//! bytes, so these texts are longer than those of the other rows.
use super::{Place, SMALL, Wanted, Way, assert_gave, assert_read, assert_read_in_sizes, joined};
use qh_fixtures::{Host, table};
use qh_model::Form;
use qh_read::fakes::FailSource;
use qh_read::{MemSource, ReadFault, Sizes, Source, read_form_sizes, read_form_threads};
use std::alloc::{AllocError, Global};
use std::test::Fail;

/// Lines in every layout, each with its point.
const LINES: [(&str, Place); 24] = table![
    ("0 -1 0\n", (0, -1, 0)); ("-8\t-7  8\n", (-8, -7, 8)); ("  -75 -6 50 \n", (-75, -6, 50));
    ("-878368 907787 64169\n", (-878368, 907787, 64169));
    ("-151620148 -912699176 -704601254\r\n", (-151620148, -912699176, -704601254));
    ("0\x0b0\x0c-1\n", (0, 0, -1)); ("-2 -7 8 # 1 2 3\n", (-2, -7, 8)); ("00000000009 -84 45\n", (9, -84, 45));
    ("-740369 986946 -531834\n", (-740369, 986946, -531834));
    ("-808046351\t629987860  -860757348\n", (-808046351, 629987860, -860757348));
    ("  -1 -1 1 \n", (-1, -1, 1)); ("-5 0 4\n", (-5, 0, 4)); ("-63 39 -69\r\n", (-63, 39, -69));
    ("197292\x0b-353067\x0c174944\n", (197292, -353067, 174944));
    ("-297527925 -631120926 -266841915 # 1 2 3\n", (-297527925, -631120926, -266841915));
    ("00000000000 -1 1\n", (0, -1, 1)); ("-7 9 -8\n", (-7, 9, -8)); ("59\t-47  28\n", (59, -47, 28));
    ("  426902 115098 -103274 \n", (426902, 115098, -103274));
    ("+275509999 926002960 872670256\n", (275509999, 926002960, 872670256));
    ("0 0 -1\r\n", (0, 0, -1)); ("-4\x0b-2\x0c-7\n", (-4, -2, -7)); ("48 -23 35 # 1 2 3\n", (48, -23, 35));
    ("00000038334 835296 -279680\n", (38334, 835296, -279680));
];

/// Returns the points of these lines.
fn places() -> [Place; 24] {
    LINES.map(|(_, place)| place)
}

/// Headers for these lines, with their number. Each header has two lines.
const HEADERS: [(Form, &str); 2] =
    table![(Form::Qhull, "3 lines\n24\n"); (Form::Off, "OFF # lines\n24 1 1\n");];

/// A comment with a point on each side of many cuts.
const LONG_COMMENT: &str =
    "# 1 2 3 4 5 6 7 8 9 10 11 12 13 14 15 16 17 18 19 20 21 22 23 24 25 26 27 28 29 30 31 32 33 34 35 36 37 38 39 40 41 42 43 44 45 46 47 48\n";

/// Faces, longer than a batch.
const FACES: &str =
    "4 0 1 2 3\n4 0 1 2 3\n4 0 1 2 3\n4 0 1 2 3\n4 0 1 2 3\n4 0 1 2 3\n4 0 1 2 3\n4 0 1 2 3\n4 0 1 2 3\n4 0 1 2 3\n";

/// Returns the lines after a header, with the line of this number replaced by another.
fn with_line(alloc: Global, header: &str, place: usize, line: &str) -> Result<Vec<u8>, AllocError> {
    let mut bytes = joined(alloc, &[header])?;
    for (i, (other, _)) in LINES.iter().enumerate() {
        let text = if i == place { line } else { *other };
        bytes.extend_from_slice(text.as_bytes())?;
    }
    Ok(bytes)
}

#[test]
fn reads_lines_cut_anywhere(rt: HostRuntime) -> Result<(), Fail> {
    for (form, header) in HEADERS {
        let bytes = with_line(rt.alloc(), header, 24, "")?;
        for batch in 90..130 {
            let way = Way::Threads(sizes!(0, batch, 2, 4));
            assert_read(&rt, form, &bytes, way, Ok(&places()));
        }
    }
    Ok(())
}

/// Asserts the first fault of a text in each of the small sizes but the first two.
fn assert_refused(rt: &impl Host, form: Form, bytes: &[u8], fault: ReadFault) {
    for sizes in &SMALL[2..] {
        assert_read(rt, form, bytes, Way::Threads(*sizes), Err(fault));
    }
}

#[test]
fn tells_the_line_of_each_fault(rt: HostRuntime) -> Result<(), Fail> {
    for (form, header) in HEADERS {
        for place in 0..24 {
            // There are two lines before the points.
            let line = 3 + place as u32;
            let bad = with_line(rt.alloc(), header, place, "7 7.5 7\n")?;
            let far = with_line(rt.alloc(), header, place, "7 1073741825 7\n")?;
            assert_refused(&rt, form, &bad, ReadFault::BadNumber(line));
            assert_refused(&rt, form, &far, ReadFault::Range(line));
        }
    }
    Ok(())
}

#[test]
fn tells_points_too_few_or_too_many(rt: HostRuntime) -> Result<(), Fail> {
    let few = with_line(rt.alloc(), "3\n25\n", 24, "")?;
    let many = with_line(rt.alloc(), "3\n23\n", 24, "")?;
    let off = with_line(rt.alloc(), "OFF\n23 0 0\n", 24, "")?;
    assert_read_in_sizes(&rt, Form::Qhull, &few, Err(ReadFault::Short));
    assert_read_in_sizes(&rt, Form::Qhull, &many, Err(ReadFault::Long(26)));
    assert_read_in_sizes(&rt, Form::Off, &off, Ok(&places()[..23]));
    Ok(())
}

/// Returns the lines between two texts.
fn between(alloc: Global, front: &[&str], back: &str) -> Result<Vec<u8>, AllocError> {
    let mut bytes = joined(alloc, front)?;
    bytes.extend_from_slice(&joined(alloc, &LINES.map(|(line, _)| line))?)?;
    bytes.extend_from_slice(back.as_bytes())?;
    Ok(bytes)
}

#[test]
fn reads_no_comment_and_no_face(rt: HostRuntime) -> Result<(), Fail> {
    let line = "0 -1 0 x 1 1 1 1 1 1 1 1 1 1 1 1 1 1 1 1 1 1 1 1 1 1 1 1 1 1 1\n";
    let commented = with_line(rt.alloc(), "3\n24\n", 0, line)?;
    assert_read_in_sizes(&rt, Form::Qhull, &commented, Ok(&places()));
    let long = between(rt.alloc(), &["3\n24\n", LONG_COMMENT, LONG_COMMENT], "")?;
    assert_read_in_sizes(&rt, Form::Qhull, &long, Ok(&places()));
    let faces = between(rt.alloc(), &["OFF\n24 20 0\n", LONG_COMMENT], FACES)?;
    assert_read_in_sizes(&rt, Form::Off, &faces, Ok(&places()));
    Ok(())
}

#[test]
fn tells_failing_reads(rt: HostRuntime) {
    for fails_at in 1..13 {
        // The 10 bytes and the end are 11 reads.
        let (want, failures): (Wanted, u64) = match fails_at {
            12 => (Ok(&[(5, 5, 5)]), 0),
            _ => (Err(ReadFault::Device), 1),
        };
        let mut source = FailSource::new(b"3\n1\n5 5 5\n", 1, Some(fails_at));
        let fours = sizes!(2, 4, 2, 3);
        let outcome = read_form_sizes(&rt, rt.alloc(), Form::Qhull, &mut source, fours);
        let way = Way::FailingRead(fails_at);
        assert_gave(&rt, outcome, want, "one point", way);
        assert_eq!(rt; source.failures(), failures, "{way:?}");
    }
}

#[test]
fn reads_by_any_number_of_threads(rt: HostRuntime) -> Result<(), Fail> {
    let bytes = with_line(rt.alloc(), "3\n24\n", 24, "")?;
    for threads in 0..5 {
        let mut source = MemSource::new(&bytes);
        let outcome = read_form_threads(&rt, rt.alloc(), threads, Form::Qhull, &mut source);
        assert_gave(&rt, outcome, Ok(&places()), "lines", Way::Source);
    }
    Ok(())
}
