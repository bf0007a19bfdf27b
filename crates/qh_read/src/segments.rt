//! The segments of one text: parsed in parallel, fed in order.
ghost use Rattle.std.specs.Prelude.{◌≡◌, ◌≤◌, ◌<◌, ◌+◌, ◌++◌, ℕ, List, length, OnOk, Err};
ghost use Rattle.qh_model.specs.declared.form.Form.{Form};
ghost use Rattle.qh_read.specs.{contract.Holding.Fed, steps.Segments.AreSegments, steps.Segments.segment_text};

use crate::fault::FeedFault;
use crate::reader::Reader;
use crate::segment::Segment;
use qh_model::BYTE_LIMIT;
use std::alloc::Global;

/// Returns segment `i` of a text that is cut into segments of this size.
pub fn segment_at(text: &[u8], size: usize, i: usize) -> &[u8]
    ensures text { result.now ≡ segment_text size text.now i }
    ensures small { length result.now ≤ length text.now }
{
    let rest = &text[i.saturating_mul(size).min(text.len())..];
    &rest[..size.min(rest.len())]
}

/// Feeds a text to the reader, by its segments in order, and frees each as soon as it is fed. A text without segments is
/// fed as it is.
pub fn feed_all(
    alloc: Global,
    reader: &mut Reader,
    segments: &mut [Segment],
    text: &[u8],
) -> Result<(), FeedFault>
    requires { AreSegments segments.old text.now }
    ensures fed { OnOk result ((form : Form) (before : List ℕ) → Fed form reader.old before
        → Fed form reader.new (before ++ text.now)) }
    ensures count { OnOk result (reader.new.count ≡ reader.old.count + length text.now) }
    ensures big { result ≡ Err FeedFault.Big → BYTE_LIMIT < reader.old.count + length text.now }
{
    if segments.is_empty() {
        return reader.feed(text);
    }
    let size = text.len() / segments.len() + 1;
    for i in 0..segments.len() {
        reader.feed_segment(&segments[i], segment_at(text, size, i))?;
        segments[i] = Segment::none(alloc);
    }
    Ok(())
}
