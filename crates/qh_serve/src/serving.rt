//! A run from its source to its sink.
ghost use Rattle.std.specs.Prelude.{◌≡◌, ◌≤◌, ◌-◌, ◌^◌, ◌<◌, Err, length, MatchResult};
ghost use Rattle.qh_model.specs.declared.limits.TheConstants.{BYTE_LIMIT};
ghost use Rattle.qh_read.specs.headline.SourceBytes.{Gives};
ghost use Rattle.qh_serve.specs.headline.Serving.{Devices, IsServed, IsServeFault};

use crate::answers::text_of;
use crate::fault::Fault;
use qh_command::Settings;
use qh_read::{ReadFault, Source, read_form_threads};
use qh_run::Gate;
use qh_write::{Sink, send_pieces};
use std::alloc::Global;
use std::thread::Threads;

/// Reads points from the source to its end and sends the texts of the outputs in the settings.
///
/// The input is read by the threads in the settings. Nothing is sent before the whole text is made. The result
/// describes the state of the devices: the table of `IsServed` and `IsServeFault` has a line for each. After a failure
/// neither device is called again. The gate is notified of the workers' blocks, and takes the hull at the end of their
/// run. If all outputs are the rank, no hull is needed, and the gate is not called.
///
/// Out of memory is reported only if the source had at most `BYTE_LIMIT` bytes: `Big` takes precedence.
pub fn serve<R: Threads + Sync, S: Source, K: Sink, G: Gate>(
    rt: &R,
    alloc: Global,
    source: &mut S,
    sink: &mut K,
    settings: &Settings,
    gate: &G,
) -> Result<(), Fault>
    requires source { S.failure_count source.old < 2 ^ 64 - 1 }
    requires sink { K.count sink.old < 2 ^ 64 - 1 }
    ensures devices { let old : Devices = record { to_come = S.remaining source.old; went = K.went sink.old; source_failures = S.failure_count source.old; sink_failures = K.count sink.old; flushed = K.is_flushed sink.old } in
        let new : Devices = record { to_come = S.remaining source.new; went = K.went sink.new; source_failures = S.failure_count source.new; sink_failures = K.count sink.new; flushed = K.is_flushed sink.new } in
        MatchResult result (λ _. IsServed settings.now.form settings.now.outs old new) (IsServeFault settings.now.form settings.now.outs old new) }
    ensures big_first { result ≡ Err (Fault.Read ReadFault.Memory)
        → Gives (S.remaining source.old) (S.remaining source.new) (λ bytes. length bytes ≤ BYTE_LIMIT) }
{
    let threads = settings.threads() as usize;
    let points = read_form_threads(rt, alloc, threads, settings.form(), source)?;
    let text = text_of(rt, alloc, &points, settings, gate)?;
    send_pieces(sink, &text)?;
    Ok(())
}
