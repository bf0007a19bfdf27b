//! The answer to an input: the texts of its hull.
ghost use Rattle.std.specs.Prelude.{◌≡◌, ◌≢◌, ◌<◌, ◌≤◌, IfOk, IfErr, Err, length};
ghost use Rattle.qh_model.specs.declared.limits.TheConstants.{BYTE_LIMIT, POINT_LIMIT};
ghost use Rattle.qh_model.specs.headline.{Forms.ReadsIn, Text.IsText};
ghost use Rattle.qh_model.specs.declared.read_fault.ReadFault.TheVariants as reads;
ghost use Rattle.qh_read.specs.contract.ReadFaults.{IsFaultOf};
ghost use Rattle.qh_serve.specs.headline.Answers.{IsAnswer, IsAnswerFault};
ghost use Rattle.qh_write.specs.contract.Pieces.{bytes_in};

use crate::fault::Fault;
use crate::hulls::hull_of;
use crate::ranks::{are_all_ranks, rank_text};
use qh_command::Settings;
use qh_model::{BYTE_LIMIT, Memory, Point};
use qh_plane::distinct_in_threads;
use qh_read::{MemSource, ReadFault, read_form_threads};
use qh_run::Gate;
use qh_write::{Pieces, text_in_threads};
use std::alloc::Global;
use std::thread::Threads;

/// Returns the texts of the outputs in the settings, for at least one point and at most `POINT_LIMIT` points. Neither
/// the number of workers nor the size of blocks changes them.
///
/// If all outputs are the rank, no hull is needed, and the gate is not called. Else the gate is notified of the
/// workers' blocks, and takes the hull at the end of their run.
///
/// # Errors
///
/// `Memory` if an allocation failed.
pub(crate) fn text_of<R: Threads + Sync, G: Gate>(
    rt: &R,
    alloc: Global,
    pts: &[Point],
    settings: &Settings,
    gate: &G,
) -> Result<Pieces, Memory>
    requires some { 0 < length pts.now }
    requires few { length pts.now ≤ POINT_LIMIT }
    ensures { IfOk result (λ t. IsText pts.now settings.now.outs (bytes_in t)) }
{
    let ids = distinct_in_threads(rt, alloc, pts, settings.threads())?;
    let outs = settings.outs();
    if are_all_ranks(outs) {
        let text = rank_text(alloc, pts, &ids, outs)?;
        return Ok(Pieces::of(alloc, text));
    }
    let hull = hull_of(rt, alloc, pts, &ids, settings, gate)?;
    text_in_threads(rt, alloc, &hull, pts, outs, settings.threads())
}

/// Returns the points in the input, or its first fault, read by the threads in the settings.
fn points_in<R: Threads + Sync>(
    rt: &R,
    alloc: Global,
    input: &[u8],
    settings: &Settings,
) -> Result<Vec<Point>, ReadFault>
    ensures read { IfOk result (λ points. ReadsIn settings.now.form input.now points.items) }
    ensures fault { IfErr result (λ e. IsFaultOf settings.now.form input.now e) }
    ensures big { BYTE_LIMIT < length input.now → result ≡ Err reads.Big }
    ensures no_device { result ≢ Err reads.Device }
{
    if input.len() > BYTE_LIMIT as usize {
        return Err(ReadFault::Big);
    }
    let threads = settings.threads() as usize;
    let mut source = MemSource::new(input);
    read_form_threads(rt, alloc, threads, settings.form(), &mut source)
}

/// Returns the texts of the outputs in the settings, for the points in the input. The points alone define these texts.
///
/// The input is read by the threads in the settings. The gate is notified of the workers' blocks, and takes the hull at
/// the end of their run. If all outputs are the rank, no hull is needed, and the gate is not called.
///
/// The fault is the first fault of the input, or out of memory. `Big` takes precedence over all other faults, including
/// out of memory. `answer` never reports that a device failed, that the text could not be sent or that a command line
/// is invalid.
pub fn answer<R: Threads + Sync, G: Gate>(
    rt: &R,
    alloc: Global,
    input: &[u8],
    settings: &Settings,
    gate: &G,
) -> Result<Vec<u8>, Fault>
    ensures answered { IfOk result (λ t. IsAnswer settings.now.form input.now settings.now.outs t.items) }
    ensures fault { IfErr result (IsAnswerFault settings.now.form input.now) }
    ensures big { BYTE_LIMIT < length input.now → result ≡ Err (Fault.Read reads.Big) }
    ensures no_device { result ≢ Err (Fault.Read reads.Device) }
    ensures no_send { result ≢ Err Fault.Send }
    ensures no_usage { result ≢ Err Fault.Usage }
{
    let points = points_in(rt, alloc, input, settings)?;
    let text = text_of(rt, alloc, &points, settings, gate)?;
    Ok(text.joined(alloc)?)
}
