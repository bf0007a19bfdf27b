//! The verdict that a check of faces returns.

/// The verdict on faces. A field that does not apply to the kind is 0.
#[repr(C)]
#[derive(Clone, Copy, Debug)]
pub struct Verdict {
    /// `RIGHT`, or the kind of fault.
    pub kind: u32,
    /// The point above the plane of the face.
    pub point: u32,
    /// The point at which the edge starts.
    pub from: u32,
    /// The point at which the edge ends.
    pub to: u32,
    /// The face, by its position.
    pub face: usize,
}
