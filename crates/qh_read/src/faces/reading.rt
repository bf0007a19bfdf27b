//! How a file of faces is read, and the result.
use qh_model::{Point, Polygon};

/// How a file of faces is written.
#[derive(Clone, Copy, Debug, PartialEq, Eq)]
pub enum Layout {
    /// An OFF file: its vertices, and faces whose numbers name the vertices.
    Off,
    /// The number of faces, and then each face with the number of its corners first: Qhull's option `Fv`.
    Counted,
    /// The number of faces, and then a line of corners for each face: Qhull's option `i`.
    Lines,
}

/// The orientation of faces, seen from outside.
#[derive(Clone, Copy, Debug, PartialEq, Eq)]
pub enum Orientation {
    /// As in OFF files.
    Counterclockwise,
    /// As Qhull writes them.
    Clockwise,
}

/// How a file of faces is read.
#[derive(Clone, Copy, Debug, PartialEq, Eq)]
pub struct Reading {
    /// The layout of the file.
    pub layout: Layout,
    /// The orientation of its faces.
    pub orientation: Orientation,
}

/// Faces, as numbers of points.
#[derive(Debug, Drop)]
pub struct Faces {
    /// The vertices of the file, if the numbers name vertices of the file.
    pub vertices: Vec<Point>,
    /// The numbers of the corners of each face, counterclockwise seen from outside.
    pub polygons: Vec<Polygon>,
}
