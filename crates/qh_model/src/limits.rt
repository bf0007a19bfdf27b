//! The limits of the input. No other file defines them.

/// The greatest absolute value of a coordinate.
pub const COORDINATE_LIMIT: u32 = 1073741824;

/// The greatest number of points.
pub const POINT_LIMIT: u32 = 1048576;

/// The greatest length of an input in bytes.
pub const BYTE_LIMIT: u32 = 268435456;

/// The greatest number of blocks of a cut.
pub const BLOCK_LIMIT: u32 = 65536;

/// The greatest number of workers.
pub const WORKER_LIMIT: u32 = 64;
