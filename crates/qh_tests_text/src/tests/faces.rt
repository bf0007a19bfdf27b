//! Worked rows: texts, and their faces.
use qh_fixtures::faces::are_round;
use qh_fixtures::faces_of;
use qh_model::ReadFault;
use qh_read::faces::{Layout, Orientation, Reading, read_faces};
use std::alloc::Global;

/// The reading of a file with this layout and this direction of its faces.
macro_rules! reading {
    ($layout:ident, $orientation:ident) => {
        Reading { layout: Layout::$layout, orientation: Orientation::$orientation }
    };
}

/// Returns true if a text has these faces, in this order.
fn has(alloc: Global, text: &str, reading: Reading, faces: &[&[u32]]) -> bool {
    match read_faces(alloc, text.as_bytes(), reading) {
        Ok(found) => are_round(&found.polygons, faces),
        Err(_) => false,
    }
}

/// An OFF file of two faces, the first with a colour, with further words on their lines.
const OFF: &str =
    "OFF # two faces\n3 2 3\n1 1 1 0 0 0\n1 0 0\n3 0 1\n2 255 0.5\n3 2 1 0 # no colour\n";

#[test]
fn colours_are_passed_over(rt: HostRuntime) {
    let reading = reading!(Off, Counterclockwise);
    assert!(rt; has(rt.alloc(), OFF, reading, &faces_of![0 1 2, 2 1 0]));
}

#[test]
fn clockwise_lines_are_turned(rt: HostRuntime) {
    let reading = reading!(Lines, Clockwise);
    assert!(rt; has(rt.alloc(), "1\n7 8 9 \n", reading, &[&[9, 8, 7]]));
}

#[test]
fn a_word_that_is_no_number_has_its_line_told(rt: HostRuntime) {
    let reading = reading!(Counted, Counterclockwise);
    let fault = read_faces(rt.alloc(), b"2\n3 0 1 2\n3 0 1 -2\n", reading).err();
    assert_eq!(rt; fault, Some(ReadFault::BadNumber(3)));
}
