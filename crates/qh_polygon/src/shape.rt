//! The shape of a set of points.
use qh_model::Id;

/// The kind of a set of distinct points, with ids that prove it.
///
/// `i` and `j` are the first two ids of the set, `k` is the first that is not in line with them, and `l` the first that
/// is not in the plane of the three.
#[derive(Clone, Copy, Debug, PartialEq, Eq)]
pub enum Shape {
    /// Dimension 0: the only id.
    Point(Id),
    /// Dimension 1: `i` and `j`.
    Segment(Id, Id),
    /// Dimension 2: `i`, `j` and `k`.
    Flat(Id, Id, Id),
    /// Dimension 3: `i`, `j`, `k` and `l`.
    Solid(Id, Id, Id, Id),
}
