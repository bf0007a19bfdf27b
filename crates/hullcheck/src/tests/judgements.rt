//! The judgement on faces, and the settings of command lines.
use crate::command_line::settings_of;
use crate::fault::Fault;
use crate::judging::check_streams;
use qh_check::{Judgement, SurfaceVerdict};
use qh_model::ReadFault;
use qh_read::MemSource;
use qh_read::faces::{Layout, Orientation, Reading};
use std::alloc::{AllocError, Global};
use std::test::Fail;
use std::thread::Threads;

/// The corners of a cube, two of them twice.
pub const CUBE: &str =
    "3 10\n0 0 0\n0 0 1\n0 1 0\n0 1 1\n1 0 0\n1 0 1\n1 1 0\n1 1 1\n0 0 0\n1 1 1\n";

/// Returns the judgement on a text of faces of the cube.
fn told<R: Threads + Sync>(
    rt: &R,
    alloc: Global,
    text: &str,
    reading: Reading,
) -> Result<Judgement, Fault> {
    let mut points = MemSource::new(CUBE.as_bytes());
    check_streams(rt, alloc, &mut points, text.as_bytes(), reading, 1)
}

/// The reading of Qhull's option `i`.
const INDICES: Reading = Reading {
    layout: Layout::Lines,
    orientation: Orientation::Clockwise,
};

/// The reading of an OFF file.
const OFF: Reading = Reading {
    layout: Layout::Off,
    orientation: Orientation::Counterclockwise,
};

/// The faces of the cube as Qhull writes them, two corners under their second index.
pub const BY_INDICES: &str = "6\n4 6 2 8 \n1 5 4 0 \n5 9 6 4 \n3 1 0 2 \n7 3 2 6 \n3 7 5 1 \n";

/// The same faces, each with the number of its corners first, in the order of OFF files.
pub const COUNTED: &str = "6\n4 8 2 6 4\n4 0 4 5 1\n4 4 6 9 5\n4 2 0 1 3\n4 6 2 3 7\n4 1 5 7 3\n";

/// An OFF file of a tetrahedron of corners of the cube, with a comment.
const TETRAHEDRON: &str =
    "OFF # four corners\n4 4 6\n1 1 1\n0 0 0\n1 0 0\n0 1 0\n3 0 1 2\n3 0 3 1\n3 0 2 3\n3 1 3 2\n";

/// The reading of faces with the numbers of their corners.
const WITH_COUNTS: Reading = Reading {
    layout: Layout::Counted,
    ..OFF
};

/// An OFF file whose second vertex is no point.
const STRANGE_VERTEX: &str = "OFF\n3 1 3\n0 0 0\n2 0 0\n0 1 0\n3 0 1 2\n";

/// Texts of faces, their readings and the judgements on them.
const ROWS: [(&str, Reading, Result<Judgement, Fault>); 5] = table![
    (BY_INDICES, INDICES, Ok(Judgement::Told(SurfaceVerdict::Right)));
    (COUNTED, WITH_COUNTS, Ok(Judgement::Told(SurfaceVerdict::Right)));
    // An index of no point.
    ("2\n0 1 2\n0 1 10\n", INDICES, Ok(Judgement::Stranger(1)));
    (STRANGE_VERTEX, OFF, Ok(Judgement::Stranger(0)));
    ("3\n0 1 2\n", INDICES, Err(Fault::Faces(ReadFault::Short)));
];

#[test]
fn faces_have_their_judgements(rt: HostRuntime) -> Result<(), Fail> {
    for (text, reading, wanted) in ROWS {
        let told = told(&rt, rt.alloc(), text, reading);
        assert_eq!(rt; told, wanted, "{text:?}");
    }
    Ok(())
}

#[test]
fn the_hull_of_some_of_the_points_is_wrong(rt: HostRuntime) -> Result<(), Fail> {
    let told = told(&rt, rt.alloc(), TETRAHEDRON, OFF);
    assert!(rt; matches!(told, Ok(Judgement::Told(SurfaceVerdict::NoPiece(_, _)))));
    Ok(())
}

/// Returns words, the program's name first.
pub fn words(alloc: Global, texts: &[&str]) -> Result<Vec<String>, AllocError> {
    let mut words = Vec::new(alloc);
    for text in texts {
        words.push(String::from_str(alloc, text)?)?;
    }
    Ok(words)
}

#[test]
fn options_stand_before_or_behind_files(rt: HostRuntime) -> Result<(), Fail> {
    let words = words(
        rt.alloc(),
        &["hullcheck", "a", "--workers", "64", "b", "--indices"],
    )?;
    let settings = settings_of(&words);
    let Ok(settings) = settings else {
        return Err(Fail::new("no settings"));
    };
    assert!(rt; settings.workers == 64 && settings.reading.layout == Layout::Lines);
    assert!(rt; settings.points == Some("a") && settings.faces == Some("b"));
    Ok(())
}

#[test]
fn workers_out_of_range_are_no_command_line(rt: HostRuntime) -> Result<(), Fail> {
    let words = words(rt.alloc(), &["hullcheck", "a", "--workers", "65"])?;
    assert!(rt; matches!(settings_of(&words), Err(Fault::Usage)));
    Ok(())
}
