//! The text of each output of a hull.
ghost use Rattle.std.specs.Prelude.{◌≡◌, ◌++◌, ◌<◌, IfOk, OnOk};
ghost use Rattle.qh_model.specs.{contract.IdSets.AreIndices, headline.Text.hull_text, headline.Text.output_text};
ghost use Rattle.qh_write.specs.contract.Pieces.{bytes_in};

mod edges;
mod fans;
mod forms;
mod lines;
mod numbering;
mod off;
mod room;
mod scribes;
mod summary;

use self::forms::FaceForm;
use self::scribes::{Alone, InThreads, Scribe};
use crate::pieces::Pieces;
use qh_model::{Hull, Memory, Out, Point};
use std::alloc::{AllocError, Global};
use std::thread::Threads;

/// Appends the text of one output.
fn push_output<S: Scribe>(
    scribe: &S,
    text: &mut Pieces,
    alloc: Global,
    hull: &Hull,
    pts: &[Point],
    out: Out,
) -> Result<(), AllocError>
    requires indices { AreIndices pts.now hull.now.body.extremes }
    requires ready { S.ready scribe.now }
    ensures { OnOk result (bytes_in text.new ≡ bytes_in text.old ++ output_text hull.now pts.now out) }
{
    match out {
        Out::Rank => summary::push_rank(&mut text.last, hull),
        Out::Summary => summary::push_summary(&mut text.last, hull),
        Out::Fx => off::push_extremes(&mut text.last, &hull.body),
        Out::Off => off::push_off(scribe, text, alloc, FaceForm::Whole, &hull.body, pts),
        Out::OffTriangles => off::push_off(scribe, text, alloc, FaceForm::Fans, &hull.body, pts),
    }
}

/// Returns the texts of the outputs in their order, with a scribe for vertices and faces.
fn text_by<S: Scribe>(
    scribe: &S,
    alloc: Global,
    hull: &Hull,
    pts: &[Point],
    outs: &[Out],
) -> Result<Pieces, Memory>
    requires indices { AreIndices pts.now hull.now.body.extremes }
    requires ready { S.ready scribe.now }
    ensures { IfOk result (λ t. bytes_in t ≡ hull_text hull.now pts.now outs.now) }
{
    let mut text = Pieces::with_room(alloc, scribe.room(&hull.body, outs))?;
    for out in outs {
        push_output(scribe, &mut text, alloc, hull, pts, *out)?;
    }
    Ok(text)
}

/// Returns the texts of the outputs, joined in their order, written by the calling thread alone.
///
/// The caller ensures that every id in the hull is the index of a point in `pts`.
///
/// # Errors
///
/// `Memory` if an allocation failed.
///
/// Source: Qhull manual (`Fx`), Geomview OFF.
pub fn text(alloc: Global, hull: &Hull, pts: &[Point], outs: &[Out]) -> Result<Vec<u8>, Memory>
    requires { AreIndices pts.now hull.now.body.extremes }
    ensures { IfOk result (λ t. t.items ≡ hull_text hull.now pts.now outs.now) }
{
    let pieces = text_by(&Alone, alloc, hull, pts, outs)?;
    pieces.joined(alloc)
}

/// Returns the texts of the outputs in their order, as [`text`] does, in pieces. At most `threads` threads write the
/// vertices and the faces or fans of a large hull in parallel. The number of threads affects the time and where pieces
/// end, but no byte.
///
/// The caller ensures that every id in the hull is the index of a point in `pts`.
///
/// # Errors
///
/// `Memory` if an allocation failed.
pub fn text_in_threads<R: Threads + Sync>(
    rt: &R,
    alloc: Global,
    hull: &Hull,
    pts: &[Point],
    outs: &[Out],
    threads: u32,
) -> Result<Pieces, Memory>
    requires { AreIndices pts.now hull.now.body.extremes }
    ensures { IfOk result (λ t. bytes_in t ≡ hull_text hull.now pts.now outs.now) }
{
    let scribe = InThreads {
        rt,
        threads: threads as usize,
    };
    text_by(&scribe, alloc, hull, pts, outs)
}
