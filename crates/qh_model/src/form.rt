//! The forms of files of points.

/// The format of a file of points.
#[derive(Clone, Copy, Debug, PartialEq, Eq)]
pub enum Form {
    /// The dimension and the count of points, and then the coordinates. Source: Qhull manual.
    Qhull,
    /// The keyword `OFF`, the counts, the vertices, and then the faces, which are dropped. Source: Geomview OFF.
    Off,
}
