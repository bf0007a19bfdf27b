//! Writes flat lists to the front of the caller's buffers.
ghost use Rattle.std.specs.Prelude.{◌≡◌, ◌≤◌, ◌<◌, ◌⊎◌, length, take, drop, true, false};
ghost use Rattle.qconvex_c.specs.steps.Buffers.{AreSame};

use crate::flat_hull::FlatHull;

/// The caller's buffers for hulls.
#[derive(Drop)]
pub struct Buffers<'a> {
    /// Receives the extreme ids.
    pub extremes: &'a mut [u32],
    /// Receives the offsets in `corners` at which faces begin and end.
    pub offsets: &'a mut [usize],
    /// Receives the corners of faces.
    pub corners: &'a mut [u32],
}

/// Writes items at the front of a buffer that is long enough. The rest of the buffer stays.
pub fn put<T: Copy>(buffer: &mut [T], items: &[T])
    requires { length items.now ≤ length buffer.old }
    ensures items { take (length items.now) buffer.new ≡ items.now }
    ensures rest { drop (length items.now) buffer.new ≡ drop (length items.now) buffer.old }
{
    buffer[..items.len()].copy_from_slice(items);
}

/// Writes a flat hull to buffers and returns true if each is long enough. Else leaves them unchanged and returns false.
pub fn fill(flat: &FlatHull, buffers: &mut Buffers) -> bool
    ensures done { result ≡ true → (take (length flat.now.extremes.items) buffers.new.extremes.now ≡ flat.now.extremes.items)
        × (take (length flat.now.offsets.items) buffers.new.offsets.now ≡ flat.now.offsets.items)
        × (take (length flat.now.corners.items) buffers.new.corners.now ≡ flat.now.corners.items) }
    ensures rest { result ≡ true
        → (drop (length flat.now.extremes.items) buffers.new.extremes.now ≡ drop (length flat.now.extremes.items) buffers.old.extremes.now)
        × (drop (length flat.now.offsets.items) buffers.new.offsets.now ≡ drop (length flat.now.offsets.items) buffers.old.offsets.now)
        × (drop (length flat.now.corners.items) buffers.new.corners.now ≡ drop (length flat.now.corners.items) buffers.old.corners.now) }
    ensures short { result ≡ false → (length buffers.old.extremes.now < length flat.now.extremes.items)
        ⊎ (length buffers.old.offsets.now < length flat.now.offsets.items)
        ⊎ (length buffers.old.corners.now < length flat.now.corners.items) }
    ensures kept { result ≡ false → (buffers.new.extremes.now ≡ buffers.old.extremes.now)
        × (buffers.new.offsets.now ≡ buffers.old.offsets.now) × (buffers.new.corners.now ≡ buffers.old.corners.now) }
    ensures same { AreSame buffers.old buffers.new }
{
    if buffers.extremes.len() < flat.extremes.len()
        || buffers.offsets.len() < flat.offsets.len()
        || buffers.corners.len() < flat.corners.len()
    {
        return false;
    }
    put(buffers.extremes, &flat.extremes);
    put(buffers.offsets, &flat.offsets);
    put(buffers.corners, &flat.corners);
    true
}
