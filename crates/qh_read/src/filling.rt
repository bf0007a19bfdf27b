//! Fills a buffer from a source.
ghost use Rattle.std.specs.Prelude.{◌≡◌, ◌≤◌, ◌<◌, ◌+◌, ◌-◌, ◌^◌, true, false, take, drop, length, IfOk, IfErr, OnOk, OnErr, Ok};
ghost use Rattle.std.specs.Io.KnownBytes.{Consumes, IsAtEnd};
ghost use Rattle.qh_read.specs.steps.Sources.{Stops};

use crate::source::{DeviceFault, Source};
use crate::whole::PIECE_LENGTH;
use qh_model::{BYTE_LIMIT, ReadFault};

/// Reads at most one piece of the source into the buffer, at offset `at`. Returns the number of bytes read.
fn read_at<S: Source>(source: &mut S, bytes: &mut [u8], at: usize) -> Result<usize, DeviceFault>
    requires failures { S.failure_count source.old < 2 ^ 64 - 1 }
    requires room { at < length bytes.old }
    ensures len { length bytes.new ≡ length bytes.old }
    ensures before { take at bytes.new ≡ take at bytes.old }
    ensures bytes { IfOk result (λ n. Consumes (S.remaining source.old) (S.remaining source.new)
        (take n (drop at bytes.new))) }
    ensures end { result ≡ Ok 0 → IsAtEnd (S.remaining source.new) }
    ensures within { IfOk result (λ n. at + n ≤ length bytes.new) }
    ensures bound { IfOk result (λ n. n ≤ PIECE_LENGTH) }
    ensures kept { OnOk result (S.failure_count source.new ≡ S.failure_count source.old) }
    ensures failed { OnErr result (S.failure_count source.new ≡ S.failure_count source.old + 1) }
{
    let end = at + PIECE_LENGTH.min(bytes.len() - at);
    source.read(&mut bytes[at..end])
}

/// Reads the source until the buffer is full or the source ends; `before` bytes of the source were read earlier.
/// Returns the number of bytes read, and true if the source ended.
pub fn fill<S: Source>(
    source: &mut S,
    bytes: &mut [u8],
    before: u32,
) -> Result<(usize, bool), ReadFault>
    requires failures { S.failure_count source.old < 2 ^ 64 - 1 }
    requires some { 0 < length bytes.old }
    requires before { before ≤ BYTE_LIMIT }
    ensures len { length bytes.new ≡ length bytes.old }
    ensures within { IfOk result (λ r. r.0 ≤ length bytes.new) }
    ensures given { IfOk result (λ r.
        Consumes (S.remaining source.old) (S.remaining source.new) (take r.0 bytes.new)) }
    ensures end { IfOk result (λ r. r.1 ≡ true → IsAtEnd (S.remaining source.new)) }
    ensures more { IfOk result (λ r. r.1 ≡ false → 0 < r.0) }
    ensures fits { IfOk result (λ r. before + r.0 ≤ BYTE_LIMIT) }
    ensures steady { OnOk result (S.failure_count source.new ≡ S.failure_count source.old) }
    ensures stops { IfErr result (λ e. Stops e before (S.remaining source.old) (S.remaining source.new)
        (S.failure_count source.old) (S.failure_count source.new)) }
{
    let mut count = 0;
    while count < bytes.len() {
        let taken = read_at(source, bytes, count)?;
        if taken == 0 {
            return Ok((count, true));
        }
        if taken > BYTE_LIMIT as usize - before as usize - count {
            return Err(ReadFault::Big);
        }
        count += taken;
    }
    Ok((count, false))
}
