//! Batches of bytes, which are cut into segments for several threads.
ghost use Rattle.std.specs.Prelude.{◌≤◌, vec_len};

use crate::fault::FeedFault;
use crate::filling::fill;
use crate::reader::Reader;
use crate::segment::Segment;
use crate::segments::{feed_all, segment_at};
use crate::source::Source;
use crate::threads::Sizes;
use qh_model::{BYTE_LIMIT, ReadFault};
use qh_threads::{Calls, map_claimed_beside};
use std::alloc::Global;
use std::thread::Threads;

/// Bytes of a source, and their segments from parsing to feeding.
#[derive(Drop)]
pub struct Batch {
    bytes: Vec<u8>,
    /// The number of bytes of the batch; the rest of `bytes` is unused room.
    count: usize,
    segments: Vec<Segment>,
    ghost within: { count ≤ vec_len bytes },
}

impl Batch {
    ghost use Rattle.std.specs.Io.KnownBytes.{Consumes, IsAtEnd};
    ghost use Rattle.std.specs.Prelude.{◌≡◌, ◌+◌, ◌-◌, ◌^◌, ◌++◌, ◌<◌, ℕ, List, true, false, length, IfErr, OnOk, Ok, Err};
    ghost use Rattle.qh_model.specs.declared.form.Form.{Form};
    ghost use Rattle.qh_read.specs.contract.Holding.{Fed};
    ghost use Rattle.qh_read.specs.steps.{Segments.batch_text, Segments.IsParsed, Segments.IsSegment, Segments.segment_text, Sources.Stops};

    /// Creates an empty batch. It allocates nothing yet.
    pub fn new(alloc: Global) -> Batch
        ensures none { result.count ≡ 0 }
        ensures parsed { IsParsed result }
    {
        Batch {
            bytes: Vec::new(alloc),
            count: 0,
            segments: Vec::new(alloc),
        }
    }

    /// Returns the bytes.
    pub fn text(&self) -> &[u8]
        ensures { result.now ≡ batch_text self.now }
    {
        &self.bytes[..self.count]
    }

    /// Replaces the bytes by the next ones of the source: at least `room` bytes, or fewer if it ends. `before` bytes of the
    /// source were read earlier. Returns true if it ended.
    pub fn fill<S: Source>(
        &mut self,
        source: &mut S,
        before: u32,
        room: usize,
    ) -> Result<bool, ReadFault>
        requires failures { S.failure_count source.old < 2 ^ 64 - 1 }
        requires room { 0 < room }
        requires before { before ≤ BYTE_LIMIT }
        ensures given { OnOk result
            (Consumes (S.remaining source.old) (S.remaining source.new) (batch_text self.new)) }
        ensures parsed { OnOk result (IsParsed self.new) }
        ensures end { result ≡ Ok true → IsAtEnd (S.remaining source.new) }
        ensures more { result ≡ Ok false → 0 < length (batch_text self.new) }
        ensures fits { OnOk result (before + length (batch_text self.new) ≤ BYTE_LIMIT) }
        ensures steady { OnOk result (S.failure_count source.new ≡ S.failure_count source.old) }
        ensures stops { IfErr result (λ e. Stops e before (S.remaining source.old) (S.remaining source.new)
            (S.failure_count source.old) (S.failure_count source.new)) }
    {
        self.segments.clear();
        if self.bytes.len() < room {
            self.bytes.resize(room, 0)?;
        }
        let (count, at_end) = fill(source, self.bytes.as_mut_slice(), before)?;
        self.count = count;
        Ok(at_end)
    }

    /// Parses the segments, which several threads claim. Before it claims, one of them feeds the batch `done` to a
    /// reader. The calling thread calls `here`. The results of these two are returned. If an allocation fails, the batch
    /// has no segments, which only costs time.
    pub fn parse_beside<R: Threads + Sync, B, H: FnMut() -> B>(
        &mut self,
        rt: &R,
        sizes: Sizes,
        reader: &mut Reader,
        done: &mut Batch,
        here: &mut H,
    ) -> (Result<(), FeedFault>, B)
        requires few { length (batch_text self.old) ≤ BYTE_LIMIT }
        requires parsed { IsParsed self.old }
        requires done { IsParsed done.old }
        requires here { H.pre here.old }
        ensures fed { OnOk result.0 ((form : Form) (before : List ℕ) → Fed form reader.old before
            → Fed form reader.new (before ++ batch_text done.old)) }
        ensures count { OnOk result.0 (reader.new.count ≡ reader.old.count + length (batch_text done.old)) }
        ensures big { result.0 ≡ Err FeedFault.Big
            → BYTE_LIMIT < reader.old.count + length (batch_text done.old) }
        ensures here { H.step here.old result.1 here.new }
        ensures parsed { IsParsed self.new }
        ensures text { batch_text self.new ≡ batch_text self.old }
    {
        let mut feed = || -> Result<(), FeedFault>
            requires { IsParsed done.now }
            ensures fed { OnOk result ((form : Form) (before : List ℕ) → Fed form reader.entry.now before
                → Fed form reader.exit.now (before ++ batch_text done.entry.now)) }
            ensures count { OnOk result (reader.exit.now.count ≡ reader.entry.now.count + length (batch_text done.entry.now)) }
            ensures big { result ≡ Err FeedFault.Big
                → BYTE_LIMIT < reader.entry.now.count + length (batch_text done.entry.now) }
        { done.feed(reader) };
        let alloc = *self.bytes.allocator();
        let text = &self.bytes[..self.count];
        let count = sizes.segments.max(1);
        let size = text.len() / count + 1;
        let parse = |i: usize| -> Segment
            requires { length text.now < 2 ^ 31 }
            ensures { IsSegment result (segment_text size text.entry.now i) }
        { Segment::of(alloc, segment_at(text, size, i)) };
        let calls = Calls {
            threads: sizes.threads,
            count,
            f: &parse,
        };
        let (fed, answer, segments) = map_claimed_beside(rt, alloc, &calls, &mut feed, here);
        if let Ok(segments) = segments {
            self.segments = segments;
        }
        (fed, answer)
    }

    /// Feeds the bytes to a reader, with the points of the segments. Each segment is freed as soon as it is fed.
    pub fn feed(&mut self, reader: &mut Reader) -> Result<(), FeedFault>
        requires { IsParsed self.old }
        ensures fed { OnOk result ((form : Form) (before : List ℕ) → Fed form reader.old before
            → Fed form reader.new (before ++ batch_text self.old)) }
        ensures count { OnOk result (reader.new.count ≡ reader.old.count + length (batch_text self.old)) }
        ensures big { result ≡ Err FeedFault.Big
            → BYTE_LIMIT < reader.old.count + length (batch_text self.old) }
    {
        let alloc = *self.bytes.allocator();
        let text = &self.bytes[..self.count];
        feed_all(alloc, reader, self.segments.as_mut_slice(), text)
    }
}
