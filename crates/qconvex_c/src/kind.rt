//! The kinds of verdicts, as numbers for C.

/// The faces are the surface of the hull.
pub const RIGHT: u32 = 0;

/// A corner of a face is not the index of a point.
pub const STRANGER: u32 = 1;

/// The first three corners of a face do not span a plane.
pub const NO_PLANE: u32 = 2;

/// A point lies above the plane of a face.
pub const ABOVE: u32 = 3;

/// The plane of a face supports the points, but its polygon differs from the face.
pub const OTHER_FACE: u32 = 4;

/// More faces run along an edge in one direction than in the other.
pub const OPEN: u32 = 5;

/// Faces run along an edge in one direction more than once.
pub const TWICE: u32 = 6;

/// There is no face, or the points lie in one plane and have a different polygon.
pub const OTHERS: u32 = 7;
