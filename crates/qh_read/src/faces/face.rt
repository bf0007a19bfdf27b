//! Parses a face from the words of a text.
ghost use Rattle.std.specs.Prelude.{◌≡◌, List, Option, IfOk, IfErr};
ghost use Rattle.qh_model.specs.declared.read_fault.ReadFault.{ReadFault};
ghost use Rattle.qh_read.specs.contract.{FaceFaults.counted_face_fault, FaceFaults.face_fault, FaceWords.IsCountedFace, FaceWords.IsFace, FaceWords.turned};
ghost use Rattle.qh_read.specs.{declared.numerals.Numeral.Numeral, steps.Corners.IsFaultFor, steps.Corners.IsTakenFace};

use crate::Numerals;
use crate::faces::corners::{next_number, skip_line, take_corners, take_line};
use crate::faces::reading::{Layout, Orientation, Reading};
use qh_model::{Id, Polygon, ReadFault};
use std::alloc::Global;

/// Takes the number of corners and the corners, and skips the rest of the last line.
fn take_counted(alloc: Global, words: &mut Numerals<'_>) -> Result<Vec<Id>, ReadFault>
    ensures ok { IfOk result (λ r. IsCountedFace words.old r.items words.new) }
    ensures passes { IfOk result (λ r. (after : List Numeral → Option ReadFault)
        → counted_face_fault after words.old ≡ after words.new) }
    ensures fault { IfErr result (IsFaultFor (λ after. counted_face_fault after words.old)) }
{
    let count = next_number(words)?;
    let corners = take_corners(alloc, words, count.value, count.line)?;
    skip_line(words, corners.last);
    Ok(corners.ids)
}

/// Takes the corners of a face, in the order of the file.
fn take_written(
    alloc: Global,
    words: &mut Numerals<'_>,
    layout: Layout,
) -> Result<Vec<Id>, ReadFault>
    ensures ok { IfOk result (λ r. IsFace layout words.old r.items words.new) }
    ensures passes { IfOk result (λ r. (after : List Numeral → Option ReadFault)
        → face_fault layout after words.old ≡ after words.new) }
    ensures fault { IfErr result (IsFaultFor (λ after. face_fault layout after words.old)) }
{
    match layout {
        Layout::Off | Layout::Counted => take_counted(alloc, words),
        Layout::Lines => take_line(alloc, words),
    }
}

/// Returns the polygon of corners that are in the order of a file.
fn polygon_of(corners: Vec<Id>, orientation: Orientation) -> Polygon
    ensures { result ≡ turned orientation corners.items }
{
    let mut corners = corners;
    if orientation == Orientation::Clockwise {
        corners.reverse();
    }
    Polygon::of(corners)
}

/// Takes a face.
pub fn take_face(
    alloc: Global,
    words: &mut Numerals<'_>,
    reading: Reading,
) -> Result<Polygon, ReadFault>
    ensures ok { IfOk result (λ face. IsTakenFace reading.layout reading.orientation words.old face words.new) }
    ensures passes { IfOk result (λ face. (after : List Numeral → Option ReadFault)
        → face_fault reading.layout after words.old ≡ after words.new) }
    ensures fault { IfErr result (IsFaultFor (λ after. face_fault reading.layout after words.old)) }
{
    let corners = take_written(alloc, words, reading.layout)?;
    Ok(polygon_of(corners, reading.orientation))
}
