//! Parses corners of faces from the words of a text.
ghost use Rattle.std.specs.Prelude.{◌≡◌, ◌∷◌, ℕ, List, Option, Some, IfOk, IfErr, length};
ghost use Rattle.qh_model.specs.declared.read_fault.ReadFault.{ReadFault};
ghost use Rattle.qh_read.specs.contract.{FaceFaults.corners_fault, FaceFaults.line_face_fault, FaceFaults.number_fault, FaceWords.IsLineFace};
ghost use Rattle.qh_read.specs.{contract.FaceWords.after_line, declared.numerals.Numeral.Numeral, steps.Corners.AreTaken, steps.Corners.IsFaultFor};

use crate::{Numeral, Numerals};
use qh_model::{Id, ReadFault};
use std::alloc::Global;

/// A number, and the line of its word.
#[derive(Clone, Copy, Debug)]
pub struct Number {
    pub value: u32,
    pub line: u32,
}

/// The corners of a face, and the line of the last one.
#[derive(Debug, Drop)]
pub struct Corners {
    pub ids: Vec<Id>,
    pub last: u32,
}

/// Returns the number that a word denotes.
fn number_of(word: Numeral) -> Result<Number, ReadFault>
    ensures ok { IfOk result (λ n. word ≡ record { number = Some n.value; line = n.line }) }
    ensures fault { IfErr result (λ e. (after : ℕ → ℕ → List Numeral → Option ReadFault) (ws : List Numeral)
        → number_fault after (word ∷ ws) ≡ Some e) }
{
    match word.number {
        Some(value) => Ok(Number {
            value,
            line: word.line,
        }),
        None => Err(ReadFault::BadNumber(word.line)),
    }
}

/// Takes the next word, which has to be a number.
pub fn next_number(words: &mut Numerals<'_>) -> Result<Number, ReadFault>
    ensures ok { IfOk result (λ n. words.old ≡ record { number = Some n.value; line = n.line } ∷ words.new) }
    ensures fault { IfErr result (λ e. (after : ℕ → ℕ → List Numeral → Option ReadFault)
        → number_fault after words.old ≡ Some e) }
{
    match words.take() {
        Some(word) => number_of(word),
        None => Err(ReadFault::Short),
    }
}

/// Takes a number of corners, after a word on this line.
pub fn take_corners(
    alloc: Global,
    words: &mut Numerals<'_>,
    count: u32,
    line: u32,
) -> Result<Corners, ReadFault>
    ensures ok { IfOk result (λ r. AreTaken line words.old r.ids.items r.last words.new) }
    ensures count { IfOk result (λ r. length r.ids.items ≡ count) }
    ensures passes { IfOk result (λ r. (after : ℕ → List Numeral → Option ReadFault)
        → corners_fault after count line words.old ≡ after r.last words.new) }
    ensures fault { IfErr result (IsFaultFor (λ after. corners_fault after count line words.old)) }
{
    let mut ids = Vec::new(alloc);
    let mut last = line;
    'corners: for _ in 0..count {
        let number = next_number(words)?;
        ids.push(Id::new(number.value))
            .map_err(|_| ReadFault::Memory)?;
        last = number.line;
    }
    Ok(Corners { ids, last })
}

/// Takes a corner, and then the other corners on its line.
pub fn take_line(alloc: Global, words: &mut Numerals<'_>) -> Result<Vec<Id>, ReadFault>
    ensures ok { IfOk result (λ r. IsLineFace words.old r.items words.new) }
    ensures passes { IfOk result (λ r. (after : List Numeral → Option ReadFault)
        → line_face_fault after words.old ≡ after words.new) }
    ensures fault { IfErr result (IsFaultFor (λ after. line_face_fault after words.old)) }
{
    let first = next_number(words)?;
    let mut ids = Vec::new(alloc);
    ids.push(Id::new(first.value))
        .map_err(|_| ReadFault::Memory)?;
    while let Some(word) = words.take_on(first.line) {
        let number = number_of(word)?;
        ids.push(Id::new(number.value))
            .map_err(|_| ReadFault::Memory)?;
    }
    Ok(ids)
}

/// Skips the words on a line.
pub fn skip_line(words: &mut Numerals<'_>, line: u32)
    ensures { words.new ≡ after_line line words.old }
{
    while words.take_on(line).is_some() {}
}
