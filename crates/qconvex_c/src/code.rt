//! The return codes, as numbers for C.

/// The buffers hold the answer.
pub const DONE: u32 = 0;

/// There is no point.
pub const NO_POINT: u32 = 1;

/// There are more than `POINT_LIMIT` points.
pub const TOO_MANY: u32 = 2;

/// A coordinate is out of range.
pub const RANGE: u32 = 3;

/// An allocation failed.
pub const MEMORY: u32 = 4;

/// A buffer is too short.
pub const ROOM: u32 = 5;

/// There is no start or offset, or one is below the one before it or beyond the list that it cuts.
pub const STARTS: u32 = 6;

/// For neighbours: no triangle has the reversed side.
pub const NONE: u32 = 4294967295;
