//! The outputs.

/// A kind of text made from a hull.
#[derive(Clone, Copy, Debug, PartialEq, Eq)]
pub enum Out {
    /// `rank`: the numbers of points and of distinct points, and the dimension.
    Rank,
    /// `s`: a summary in six lines.
    Summary,
    /// `Fx`: the extreme ids. Source: Qhull manual, `Fx`.
    Fx,
    /// `off`: vertices and faces. Source: Geomview OFF.
    Off,
    /// `offt`: vertices and faces, each face as a fan of triangles. Source: Geomview OFF.
    OffTriangles,
}
