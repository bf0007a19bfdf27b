//! Parses all faces of a text.
ghost use Rattle.std.specs.Prelude.{◌≡◌, ◌⊎◌, [], IfOk, IfErr, Some, drop, length};
ghost use Rattle.qh_model.specs.declared.read_fault.ReadFault.TheVariants as faults;
ghost use Rattle.qh_read.specs.contract.{FaceFaults.faces_fault, FaceFaults.list_fault, FaceWords.AreFaces, FaceWords.IsList};
ghost use Rattle.qh_read.specs.{declared.faces.reading.Layout.Layout, steps.Lists.behind};

use crate::Numerals;
use crate::faces::corners::next_number;
use crate::faces::face::take_face;
use crate::faces::reading::Reading;
use qh_model::{Polygon, ReadFault};
use std::alloc::Global;

/// Returns a fault if another word follows.
fn finish(words: &mut Numerals<'_>) -> Result<(), ReadFault>
    ensures end { IfOk result (λ _. words.old ≡ []) }
    ensures fault { IfErr result (λ e. (layout : Layout) → faces_fault layout 0 words.old ≡ Some e) }
{
    match words.take() {
        Some(word) => Err(ReadFault::Long(word.line)),
        None => Ok(()),
    }
}

/// Takes a number of faces, after which no word may follow.
fn take_faces(
    alloc: Global,
    words: &mut Numerals<'_>,
    count: u32,
    reading: Reading,
) -> Result<Vec<Polygon>, ReadFault>
    ensures ok { IfOk result (λ faces. AreFaces reading.layout reading.orientation words.old faces.items) }
    ensures count { IfOk result (λ faces. length faces.items ≡ count) }
    ensures fault { IfErr result (λ e. (e ≡ faults.Memory) ⊎ (faces_fault reading.layout count words.old ≡ Some e)) }
{
    let mut faces = Vec::new(alloc);
    'faces: for _ in 0..count {
        let face = take_face(alloc, words, reading)?;
        faces.push(face).map_err(|_| ReadFault::Memory)?;
    }
    finish(words)?;
    Ok(faces)
}

/// Skips a number of words.
pub fn skip_words(words: &mut Numerals<'_>, count: usize)
    ensures { words.new ≡ drop count words.old }
{
    'words: for _ in 0..count {
        let _ = words.take();
    }
}

/// Takes the number of faces, skips a number of words, and takes the faces.
pub fn take_list(
    alloc: Global,
    words: &mut Numerals<'_>,
    skipped: usize,
    reading: Reading,
) -> Result<Vec<Polygon>, ReadFault>
    ensures ok { IfOk result (λ faces. IsList reading.layout reading.orientation (behind skipped words.old) faces.items) }
    ensures fault { IfErr result (λ e. (e ≡ faults.Memory) ⊎ (list_fault reading.layout (behind skipped words.old) ≡ Some e)) }
{
    let count = next_number(words)?;
    skip_words(words, skipped);
    take_faces(alloc, words, count.value, reading)
}
