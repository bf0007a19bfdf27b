//! The program, given the words of a command line, files, and devices for lines of text.
ghost use Rattle.std.specs.Prelude.{◌≡◌, ◌⊎◌, ◌^◌, ◌-◌, ◌<◌, ℕ, List, Option, IfErr, IfOk, IfSome, Some, false, true, map};
ghost use Rattle.std.specs.{Prelude.string_bytes, Option.option_map};
ghost use Rattle.qh_write.specs.contract.LineDevices.{LineDevice};
ghost use Rattle.hullcheck.specs.contract.{Checking.IsJudgeFault, Judging.IsToldBy, Judging.IsWhole};
ghost use Rattle.hullcheck.specs.contract.Runs.{IsAnswered, IsEnd, IsRefusal, IsRun};
ghost use Rattle.qh_model.specs.declared.read_fault.ReadFault.TheVariants as reads;
ghost use Rattle.hullcheck.specs.declared.fault.Fault.TheVariants.{Faces, Memory, Points};
ghost use Rattle.hullcheck.specs.steps.Files.{IsUnread};

use crate::answer::{Answer, status_of};
use crate::command_line::{asks_help, settings_of};
use crate::fault::Fault;
use crate::files::Files;
use crate::judging::check_streams;
use qh_check::Judgement;
use qh_model::ReadFault;
use qh_write::Lines;
use std::alloc::Global;
use std::io::ErrorKind;
use std::thread::Threads;

/// Returns the fault of a file that could not be opened or read: out of memory, or the given one.
fn unread(kind: ErrorKind, fault: Fault) -> Fault
    ensures { (result ≡ Memory) ⊎ (result ≡ fault) }
{
    match kind {
        ErrorKind::OutOfMemory => Fault::Memory,
        _ => fault,
    }
}

/// Opens the file of the points.
fn open<F: Files>(files: &mut F, name: &str) -> Result<F::File, Fault>
    ensures same { F.contents files.new ≡ F.contents files.old }
    ensures bytes { IfOk result (λ f. IfSome (F.contents files.old (Some name.now)) (λ known. F.File.remaining f ≡ Some known)) }
    ensures begins { IfOk result (λ f. F.File.failure_count f ≡ 0) }
    ensures fault { IfErr result (IsUnread (Points reads.Device) (F.failed files.new (Some name.now) ≡ true)) }
{
    match files.open(name) {
        Ok(file) => Ok(file),
        Err(kind) => Err(unread(kind, Fault::Points(ReadFault::Device))),
    }
}

/// Returns all bytes of the file of the faces, or of the standard input.
fn text_of<F: Files>(files: &mut F, alloc: Global, name: Option<&str>) -> Result<Vec<u8>, Fault>
    ensures same { F.contents files.new ≡ F.contents files.old }
    ensures bytes { IfOk result (λ v. IsWhole (F.contents files.old (option_map (λ w. w.now) name.entry)) v.items) }
    ensures fault { IfErr result (IsUnread (Faces reads.Device) (F.failed files.new (option_map (λ w. w.now) name.entry) ≡ true)) }
{
    match files.text(alloc, name) {
        Ok(text) => Ok(text),
        Err(kind) => Err(unread(kind, Fault::Faces(ReadFault::Device))),
    }
}

/// Judges the faces that a command line names.
///
/// # Errors
///
/// `Usage` if the command line is invalid, `Memory` if an allocation failed, and `Points` or `Faces` with the first fault
/// of that file, which is `Device` if it could not be opened or read.
fn judge_words<R: Threads + Sync, F: Files>(
    rt: &R,
    alloc: Global,
    words: &[String],
    processors: usize,
    files: &mut F,
) -> Result<Judgement, Fault>
    ensures told { IfOk result (IsToldBy (map string_bytes words.now) (F.contents files.old)) }
    ensures fault { IfErr result (IsJudgeFault (map string_bytes words.now) (F.contents files.old) (λ name. F.failed files.new name ≡ true)) }
{
    let settings = settings_of(words)?;
    // A closed standard input has to fail before a file takes its descriptor.
    let text = text_of(files, alloc, settings.faces)?;
    let name = settings.points.unwrap();
    let mut points = open(files, name)?;
    let threads = (settings.workers as usize).min(processors).max(1);
    let judged = check_streams(
        rt,
        alloc,
        &mut points,
        &text,
        settings.reading,
        threads as u32,
    );
    files.close(points, name);
    judged
}

/// Answers a command line with the help text or with the judgement on the faces, if its words could be read.
fn answer<R: Threads + Sync, F: Files>(
    rt: &R,
    alloc: Global,
    words: Result<Vec<String>, ErrorKind>,
    processors: usize,
    files: &mut F,
) -> Result<Answer, Fault>
    ensures { IsAnswered (λ v. map string_bytes v.items) words (F.contents files.old) (λ name. F.failed files.new name ≡ true) result }
{
    match words {
        Ok(words) if asks_help(&words) => Ok(Answer::Help),
        Ok(words) => Ok(Answer::Told(judge_words(rt, alloc, &words, processors, files)?)),
        Err(ErrorKind::OutOfMemory) => Err(Fault::Memory),
        // A word is not UTF-8.
        Err(_) => Err(Fault::Usage),
    }
}

/// Writes the line of a fault, and returns its exit status.
fn refuse<L: Lines>(errors: &mut L, fault: Fault) -> u8
    requires { L.count errors.old < 2 ^ 64 - 1 }
    ensures { let old : LineDevice = record { went = L.went errors.old; failures = L.count errors.old } in
        let new : LineDevice = record { went = L.went errors.new; failures = L.count errors.new } in
        IsRefusal fault old new result }
{
    let _ = errors.line(fault);
    fault.status()
}

/// Writes the text of an answer or the line of a fault, and returns its exit status.
fn end<O: Lines, L: Lines>(output: &mut O, errors: &mut L, answered: Result<Answer, Fault>) -> u8
    requires output { O.count output.old < 2 ^ 64 - 1 }
    requires errors { L.count errors.old < 2 ^ 64 - 1 }
    ensures { let old : LineDevice = record { went = O.went output.old; failures = O.count output.old } in
        let new : LineDevice = record { went = O.went output.new; failures = O.count output.new } in
        let before : LineDevice = record { went = L.went errors.old; failures = L.count errors.old } in
        let after : LineDevice = record { went = L.went errors.new; failures = L.count errors.new } in
        IsEnd answered old new before after result }
{
    match answered {
        Ok(answer) => match output.line(answer) {
            Ok(()) => status_of(&answer),
            Err(_) => refuse(errors, Fault::Output),
        },
        Err(fault) => refuse(errors, fault),
    }
}

/// Judges the faces that a command line names, writes the judgement, the fault or the requested help text, and returns
/// the exit status.
///
/// `words` are the words of the command line, the program's name first, or the reason why the system could not supply
/// them. The number of processors only limits the threads.
pub fn run<R: Threads + Sync, F: Files, O: Lines, L: Lines>(
    rt: &R,
    alloc: Global,
    words: Result<Vec<String>, ErrorKind>,
    processors: usize,
    files: &mut F,
    output: &mut O,
    errors: &mut L,
) -> u8
    requires files { (name : Option (List ℕ)) → F.failed files.old name ≡ false }
    requires output { O.count output.old < 2 ^ 64 - 1 }
    requires errors { L.count errors.old < 2 ^ 64 - 1 }
    ensures { let old : LineDevice = record { went = O.went output.old; failures = O.count output.old } in
        let new : LineDevice = record { went = O.went output.new; failures = O.count output.new } in
        let before : LineDevice = record { went = L.went errors.old; failures = L.count errors.old } in
        let after : LineDevice = record { went = L.went errors.new; failures = L.count errors.new } in
        IsRun (IsAnswered (λ v. map string_bytes v.items) words (F.contents files.old) (λ name. F.failed files.new name ≡ true))
        old new before after result }
{
    let answered = answer(rt, alloc, words, processors, files);
    end(output, errors, answered)
}
