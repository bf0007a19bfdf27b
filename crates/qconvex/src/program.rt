//! The program, given the words of a command line, a source of points and a sink of texts.
ghost use Rattle.std.specs.Prelude.{◌≡◌, ◌-◌, ◌^◌, ◌<◌, map, string_bytes};
ghost use Rattle.qconvex.specs.contract.Outcomes.{IsOutcome, devices};
ghost use Rattle.qh_write.specs.contract.LineDevices.{LineDevice};
ghost use Rattle.qconvex.specs.contract.Runs.{IsAsked, IsRun, SaysFault, outcome_status};

use qh_command::{ArgFault, Settings, settings_of};
use qh_read::{ReadFault, Source};
use qh_serve::{Fault, Threaded, serve};
use qh_write::{Lines, Sink, send};
use std::alloc::Global;
use std::io::ErrorKind;
use std::thread::Threads;

/// Returns the settings of a command line for this number of processors, if its words could be read.
fn asked(
    alloc: Global,
    words: Result<Vec<String>, ErrorKind>,
    processors: usize,
) -> Result<Settings, ArgFault>
    ensures { IsAsked (λ v. map string_bytes v.items) words result }
{
    match words {
        Ok(words) => Ok(settings_of(alloc, words)?.on_processors(processors)),
        Err(ErrorKind::OutOfMemory) => Err(ArgFault::Memory),
        // A word is not UTF-8.
        Err(_) => Err(ArgFault::Usage),
    }
}

/// Serves the devices if a command line has settings. Else sends the help text if that is requested, or returns why
/// there are no settings.
pub fn respond<R: Threads + Sync, S: Source, K: Sink>(
    rt: &R,
    alloc: Global,
    asked: Result<Settings, ArgFault>,
    source: &mut S,
    sink: &mut K,
) -> Result<(), Fault>
    requires source { S.failure_count source.old < 2 ^ 64 - 1 }
    requires sink { K.count sink.old < 2 ^ 64 - 1 }
    ensures { let old = devices (S.remaining source.old) (K.went sink.old) (S.failure_count source.old) (K.count sink.old) (K.is_flushed sink.old) in
        let new = devices (S.remaining source.new) (K.went sink.new) (S.failure_count source.new) (K.count sink.new) (K.is_flushed sink.new) in
        IsOutcome asked old new result }
{
    match asked {
        Ok(settings) => {
            let threads = settings.threads();
            serve(
                rt,
                alloc,
                source,
                sink,
                &settings,
                &Threaded { rt, threads },
            )
        }
        Err(ArgFault::Help(text)) => match send(sink, text.as_bytes()) {
            Ok(()) => Ok(()),
            Err(_) => Err(Fault::Send),
        },
        Err(ArgFault::Usage) => Err(Fault::Usage),
        Err(ArgFault::Memory) => Err(Fault::Read(ReadFault::Memory)),
    }
}

/// Writes the line of a fault, and returns the exit status of the outcome.
fn end<L: Lines>(errors: &mut L, outcome: Result<(), Fault>) -> u8
    requires { L.count errors.old < 2 ^ 64 - 1 }
    ensures status { result ≡ outcome_status outcome }
    ensures line { let old : LineDevice = record { went = L.went errors.old; failures = L.count errors.old } in
        let new : LineDevice = record { went = L.went errors.new; failures = L.count errors.new } in
        SaysFault outcome old new }
{
    match outcome {
        Ok(()) => 0,
        Err(fault) => {
            let _ = errors.line(fault);
            fault.status()
        }
    }
}

/// Parses the words of a command line, serves the source and the sink or writes the help text, and returns the exit
/// status: 0, or that of the fault whose line was written to the errors.
///
/// `words` are the words of the command line, the program's name first, or the reason why the system could not supply
/// them. The number of processors only limits the threads.
pub fn run<R: Threads + Sync, S: Source, K: Sink, L: Lines>(
    rt: &R,
    alloc: Global,
    words: Result<Vec<String>, ErrorKind>,
    processors: usize,
    source: &mut S,
    sink: &mut K,
    errors: &mut L,
) -> u8
    requires source { S.failure_count source.old < 2 ^ 64 - 1 }
    requires sink { K.count sink.old < 2 ^ 64 - 1 }
    requires errors { L.count errors.old < 2 ^ 64 - 1 }
    ensures { let old = devices (S.remaining source.old) (K.went sink.old) (S.failure_count source.old) (K.count sink.old) (K.is_flushed sink.old) in
        let new = devices (S.remaining source.new) (K.went sink.new) (S.failure_count source.new) (K.count sink.new) (K.is_flushed sink.new) in
        let before : LineDevice = record { went = L.went errors.old; failures = L.count errors.old } in
        let after : LineDevice = record { went = L.went errors.new; failures = L.count errors.new } in
        IsRun (λ v. map string_bytes v.items) words old new before after result }
{
    let outcome = respond(rt, alloc, asked(alloc, words, processors), source, sink);
    end(errors, outcome)
}
