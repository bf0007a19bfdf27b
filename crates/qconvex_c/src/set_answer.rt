//! The answer of one set among many.

use crate::sizes::Sizes;

/// The answer of one set: the code of [`qconvex_hull`](crate::qconvex_hull), and the sizes of its hull.
#[repr(C)]
#[derive(Clone, Copy, Debug)]
pub struct SetAnswer {
    /// `DONE`, or why the set has no hull.
    pub code: u32,
    /// The sizes of the hull for `DONE` and `ROOM`; all 0 for other codes.
    pub sizes: Sizes,
}
