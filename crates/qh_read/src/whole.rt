//! Reads a whole input.
ghost use Rattle.std.specs.Prelude.{◌≡◌, ◌≤◌, ◌<◌, ◌-◌, ◌^◌, true, false, vec_len, IfOk, IfErr, OnOk, Ok};
ghost use Rattle.std.specs.Io.KnownBytes.{IsAtEnd};
ghost use Rattle.qh_model.specs.declared.form.Form.TheVariants as forms;
ghost use Rattle.qh_read.specs.{contract.Answers.AnswersBytes, contract.Answers.AnswersSource, steps.Sources.FedOn, steps.Sources.Stops};

use crate::reader::Reader;
use crate::source::Source;
use qh_model::{BYTE_LIMIT, Form, Point, ReadFault};
use std::alloc::{AllocError, Global};

/// The number of bytes that are processed at once, so that the room reserved for their points stays small.
pub const PIECE_LENGTH: usize = 65536;

/// Returns the points of a file of this form, in its order, or its first fault.
///
/// # Errors
///
/// `Big` takes precedence over all other faults, and is found before any allocation; `Memory` if an allocation failed;
/// never `Device`.
pub fn read_form(alloc: Global, form: Form, bytes: &[u8]) -> Result<Vec<Point>, ReadFault>
    ensures { AnswersBytes form bytes.now result }
{
    if bytes.len() > BYTE_LIMIT as usize {
        return Err(ReadFault::Big);
    }
    let mut reader = Reader::of_form(alloc, form);
    for piece in bytes.chunks(PIECE_LENGTH) {
        reader.feed(piece)?;
    }
    reader.finish()
}

/// Returns the points of a point file, in its order, or its first fault, with the errors of
/// [`read_form`].
pub fn read_points(alloc: Global, bytes: &[u8]) -> Result<Vec<Point>, ReadFault>
    ensures { AnswersBytes forms.Qhull bytes.now result }
{
    read_form(alloc, Form::Qhull, bytes)
}

/// Returns the points that are the vertices of an OFF file, in its order, or its first fault, with the
/// errors of [`read_form`].
pub fn read_off(alloc: Global, bytes: &[u8]) -> Result<Vec<Point>, ReadFault>
    ensures { AnswersBytes forms.Off bytes.now result }
{
    read_form(alloc, Form::Off, bytes)
}

/// Returns a buffer for a piece, on the heap.
fn new_buffer(alloc: Global) -> Result<Vec<u8>, AllocError>
    ensures { IfOk result (λ buffer. vec_len buffer ≡ PIECE_LENGTH) }
{
    vec![in alloc; 0; PIECE_LENGTH]
}

/// Feeds a source to a reader in pieces, until the reader has been fed at least `enough` bytes or the source ends.
/// Returns true if the source ended.
pub(crate) fn feed_from<S: Source>(
    alloc: Global,
    reader: &mut Reader,
    source: &mut S,
    enough: u32,
) -> Result<bool, ReadFault>
    requires failures { S.failure_count source.old < 2 ^ 64 - 1 }
    requires fits { reader.old.count ≤ BYTE_LIMIT }
    ensures fed { OnOk result
        (FedOn reader.old reader.new (S.remaining source.old) (S.remaining source.new)) }
    ensures fits { reader.new.count ≤ BYTE_LIMIT }
    ensures end { result ≡ Ok true → IsAtEnd (S.remaining source.new) }
    ensures enough { result ≡ Ok false → enough ≤ reader.new.count }
    ensures steady { OnOk result (S.failure_count source.new ≡ S.failure_count source.old) }
    ensures stops { IfErr result (λ e. Stops e reader.old.count (S.remaining source.old)
        (S.remaining source.new) (S.failure_count source.old) (S.failure_count source.new)) }
{
    let mut buffer = new_buffer(alloc)?;
    while reader.fed() < enough {
        let count = source.read(&mut buffer)?;
        if count == 0 {
            return Ok(true);
        }
        reader.feed(&buffer[..count])?;
    }
    Ok(false)
}

/// Returns the points of the file of this form in a source, in its order, or its first fault.
///
/// Points and faults of the text are returned only after the end was read, and describe all bytes. The source's count
/// of failures has room for one more.
///
/// # Errors
///
/// `Device` if a read failed, after which the source is not called again; `Big` if more than `BYTE_LIMIT` bytes were
/// read, at most `PIECE_LENGTH` of them in excess; `Memory` if an allocation failed before that; and the faults of the
/// text.
pub fn read_form_from<S: Source>(
    alloc: Global,
    form: Form,
    source: &mut S,
) -> Result<Vec<Point>, ReadFault>
    requires { S.failure_count source.old < 2 ^ 64 - 1 }
    ensures { AnswersSource form S.remaining S.failure_count source.old source.new result }
{
    let mut reader = Reader::of_form(alloc, form);
    feed_from(alloc, &mut reader, source, u32::MAX)?;
    reader.finish()
}

/// Returns the points of the point file in a source, in its order, or its first fault, with the errors of
/// [`read_form_from`].
pub fn read_from<S: Source>(alloc: Global, source: &mut S) -> Result<Vec<Point>, ReadFault>
    requires { S.failure_count source.old < 2 ^ 64 - 1 }
    ensures { AnswersSource forms.Qhull S.remaining S.failure_count source.old source.new result }
{
    read_form_from(alloc, Form::Qhull, source)
}

/// Returns the points that are the vertices of the OFF file in a source, in its order, or its first fault, with the
/// errors of [`read_form_from`].
pub fn read_off_from<S: Source>(alloc: Global, source: &mut S) -> Result<Vec<Point>, ReadFault>
    requires { S.failure_count source.old < 2 ^ 64 - 1 }
    ensures { AnswersSource forms.Off S.remaining S.failure_count source.old source.new result }
{
    read_form_from(alloc, Form::Off, source)
}
