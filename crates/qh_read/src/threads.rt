//! Reads with several threads.
//!
//! A file is read in batches, and a batch is cut into segments, which threads claim and parse. Before it claims, one of
//! the threads feeds the previous batch to the reader. The calling thread only reads the next batch.
ghost use Rattle.std.specs.Io.KnownBytes.{Consumes, IsAtEnd};
ghost use Rattle.std.specs.Prelude.{◌≡◌, ◌≤◌, ◌<◌, ◌+◌, ◌-◌, ◌^◌, ◌++◌, ◌≢◌, ℕ, List, true, false, length, Err, IfErr, OnOk, Ok};
ghost use Rattle.qh_model.specs.declared.form.Form.{Form};
ghost use Rattle.qh_read.specs.contract.{Answers.AnswersSource, Holding.Fed};
ghost use Rattle.qh_read.specs.steps.{Segments.batch_text, Segments.IsParsed, Segments.FedAndFilled, Sources.FedOn, Sources.Stops};

use crate::batch::Batch;
use crate::fault::FeedFault;
use crate::reader::Reader;
use crate::source::Source;
use crate::whole::{PIECE_LENGTH, feed_from, read_form_from};
use qh_model::{BYTE_LIMIT, Form, Point, ReadFault};
use std::alloc::Global;
use std::mem;
use std::thread::Threads;

/// The number of bytes read serially before the first batch: a file of about this size takes longer with threads.
const START_LENGTH: u32 = 655_360;

/// The number of bytes of a batch: large enough to pay for starting threads, small enough that its memory is reused.
const BATCH_LENGTH: usize = 524_288;

/// The number of segments of a batch: enough for a thread that starts late to leave its share to the others.
const SEGMENTS: usize = 32;

/// A shorter last batch is parsed by the calling thread, which takes less time than starting other threads.
const SHARED_FROM: usize = 196_608;

/// How a file is cut for several threads.
#[derive(Clone, Copy, Debug)]
pub struct Sizes {
    /// The number of bytes that are read serially before the first batch.
    pub start: u32,
    /// The number of bytes of a batch. 0 counts as 1, and more than `BYTE_LIMIT` as `BYTE_LIMIT`.
    pub batch: usize,
    /// The number of segments of a batch. 0 counts as 1.
    pub segments: usize,
    /// The number of threads that parse a batch, beside the calling thread. 0 counts as 1.
    pub threads: usize,
}

/// Three batches of a source. The bytes of `done` come before those of `raw`; `next` has room for those after them.
#[derive(Drop)]
struct Batches {
    /// The batch whose segments are parsed.
    done: Batch,
    /// The batch whose segments are to be parsed.
    raw: Batch,
    /// The batch that is filled next.
    next: Batch,
}

impl Batches {
    /// Makes the raw batch the one that is done, and the next batch the raw one.
    fn advance(&mut self)
        ensures done { self.new.done ≡ self.old.raw }
        ensures raw { self.new.raw ≡ self.old.next }
    {
        mem::swap(&mut self.done, &mut self.raw);
        mem::swap(&mut self.raw, &mut self.next);
    }
}

/// Parses the segments of the raw batch, while the batch before it is fed to the reader and the next one is filled.
/// Returns true if the source ended.
fn turn<R: Threads + Sync, S: Source>(
    rt: &R,
    reader: &mut Reader,
    source: &mut S,
    batches: &mut Batches,
    sizes: Sizes,
) -> Result<bool, ReadFault>
    requires failures { S.failure_count source.old < 2 ^ 64 - 1 }
    requires done { IsParsed batches.old.done }
    requires raw { IsParsed batches.old.raw }
    requires fits { reader.old.count + length (batch_text batches.old.done) + length (batch_text batches.old.raw) ≤ BYTE_LIMIT }
    ensures raw { OnOk result (IsParsed batches.new.raw) }
    ensures next { OnOk result (IsParsed batches.new.next) }
    ensures text { OnOk result (batch_text batches.new.raw ≡ batch_text batches.old.raw) }
    ensures filled { OnOk result (FedAndFilled reader.old reader.new batches.old.done batches.new.next
        (S.remaining source.old) (S.remaining source.new) (length (batch_text batches.old.raw))) }
    ensures end { result ≡ Ok true → IsAtEnd (S.remaining source.new) }
    ensures more { result ≡ Ok false → 0 < length (batch_text batches.new.next) }
    ensures steady { OnOk result (S.failure_count source.new ≡ S.failure_count source.old) }
    ensures stops { IfErr result (λ e. Stops e
        (reader.old.count + length (batch_text batches.old.done) + length (batch_text batches.old.raw))
        (S.remaining source.old) (S.remaining source.new) (S.failure_count source.old)
        (S.failure_count source.new)) }
{
    let Batches { done, raw, next } = batches;
    let room = sizes.batch.clamp(1, BYTE_LIMIT as usize);
    let before = reader.fed() + (done.text().len() + raw.text().len()) as u32;
    let mut fill = || -> Result<bool, ReadFault>
        requires failures { S.failure_count source.now < 2 ^ 64 - 1 }
        requires before { before ≤ BYTE_LIMIT }
        requires room { 0 < room }
        ensures given { OnOk result
            (Consumes (S.remaining source.entry.now) (S.remaining source.exit.now) (batch_text next.exit.now)) }
        ensures parsed { OnOk result (IsParsed next.exit.now) }
        ensures end { result ≡ Ok true → IsAtEnd (S.remaining source.exit.now) }
        ensures more { result ≡ Ok false → 0 < length (batch_text next.exit.now) }
        ensures fits { OnOk result (before + length (batch_text next.exit.now) ≤ BYTE_LIMIT) }
        ensures steady { OnOk result (S.failure_count source.exit.now ≡ S.failure_count source.entry.now) }
        ensures stops { IfErr result (λ e. Stops e before (S.remaining source.entry.now) (S.remaining source.exit.now)
            (S.failure_count source.entry.now) (S.failure_count source.exit.now)) }
    { next.fill(source, before, room) };
    let (fed, at_end) = raw.parse_beside(rt, sizes, reader, done, &mut fill);
    let at_end = at_end?;
    fed?;
    Ok(at_end)
}

/// Feeds the last two batches to the reader.
fn feed_last<R: Threads + Sync>(
    rt: &R,
    reader: &mut Reader,
    batches: &mut Batches,
    sizes: Sizes,
) -> Result<(), FeedFault>
    requires done { IsParsed batches.old.done }
    requires raw { IsParsed batches.old.raw }
    requires fits { reader.old.count + length (batch_text batches.old.done) + length (batch_text batches.old.raw) ≤ BYTE_LIMIT }
    ensures fed { OnOk result ((form : Form) (bytes : List ℕ) → Fed form reader.old bytes
        → Fed form reader.new (bytes ++ (batch_text batches.old.done ++ batch_text batches.old.raw))) }
    ensures count { OnOk result (reader.new.count
        ≡ reader.old.count + length (batch_text batches.old.done) + length (batch_text batches.old.raw)) }
    ensures big { result ≢ Err FeedFault.Big }
{
    let Batches { done, raw, .. } = batches;
    if raw.text().len() < SHARED_FROM {
        done.feed(reader)?;
        return raw.feed(reader);
    }
    let mut nothing = || {};
    let (fed, _) = raw.parse_beside(rt, sizes, reader, done, &mut nothing);
    fed?;
    raw.feed(reader)
}

/// Feeds a source to a reader to its end, in batches.
fn feed_batches<R: Threads + Sync, S: Source>(
    rt: &R,
    alloc: Global,
    reader: &mut Reader,
    source: &mut S,
    sizes: Sizes,
) -> Result<(), ReadFault>
    requires failures { S.failure_count source.old < 2 ^ 64 - 1 }
    requires fits { reader.old.count ≤ BYTE_LIMIT }
    ensures fed { OnOk result
        (FedOn reader.old reader.new (S.remaining source.old) (S.remaining source.new)) }
    ensures end { OnOk result (IsAtEnd (S.remaining source.new)) }
    ensures steady { OnOk result (S.failure_count source.new ≡ S.failure_count source.old) }
    ensures stops { IfErr result (λ e. Stops e reader.old.count (S.remaining source.old)
        (S.remaining source.new) (S.failure_count source.old) (S.failure_count source.new)) }
{
    let room = sizes.batch.clamp(1, BYTE_LIMIT as usize);
    let mut batches = Batches {
        done: Batch::new(alloc),
        raw: Batch::new(alloc),
        next: Batch::new(alloc),
    };
    let mut at_end = batches.raw.fill(source, reader.fed(), room)?;
    while !at_end {
        at_end = turn(rt, reader, source, &mut batches, sizes)?;
        batches.advance();
    }
    feed_last(rt, reader, &mut batches, sizes)?;
    Ok(())
}

/// Returns the points of the file of this form in a source, with the results of [`read_form_from`], cut in these sizes.
///
/// The sizes change the time and the memory, never the result. [`read_form_threads`] uses sizes that pay; tests use
/// sizes of a few bytes.
pub fn read_form_sizes<R: Threads + Sync, S: Source>(
    rt: &R,
    alloc: Global,
    form: Form,
    source: &mut S,
    sizes: Sizes,
) -> Result<Vec<Point>, ReadFault>
    requires { S.failure_count source.old < 2 ^ 64 - 1 }
    ensures { AnswersSource form S.remaining S.failure_count source.old source.new result }
{
    let mut reader = Reader::of_form(alloc, form);
    if !feed_from(alloc, &mut reader, source, sizes.start)? {
        feed_batches(rt, alloc, &mut reader, source, sizes)?;
    }
    reader.finish()
}

/// Returns the points of the file of this form in a source, with the results of [`read_form_from`]. It starts at most
/// this number of threads at a time.
///
/// A file of less than 851,968 bytes is read by the calling thread alone, and so is any file if `threads` is 0 or 1. The
/// result does not depend on the number of threads, nor on which of them can be started. Out of memory for the points
/// of a segment only costs time.
pub fn read_form_threads<R: Threads + Sync, S: Source>(
    rt: &R,
    alloc: Global,
    threads: usize,
    form: Form,
    source: &mut S,
) -> Result<Vec<Point>, ReadFault>
    requires { S.failure_count source.old < 2 ^ 64 - 1 }
    ensures { AnswersSource form S.remaining S.failure_count source.old source.new result }
{
    if threads < 2 {
        return read_form_from(alloc, form, source);
    }
    let sizes = Sizes {
        start: START_LENGTH,
        batch: BATCH_LENGTH,
        segments: SEGMENTS,
        threads,
    };
    read_form_sizes(rt, alloc, form, source, sizes)
}
