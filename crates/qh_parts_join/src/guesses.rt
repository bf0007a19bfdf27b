//! A set in parts, and guesses which facets of a part stay.
use crate::parts::Part;
use qh_mesh::FacetNo;
use qh_model::{Id, Point};

/// A set in parts, with ids that belong to every part.
#[derive(Clone, Copy, Drop)]
pub struct Divided<'a> {
    /// All points of the set, by id.
    pub pts: &'a [Point],
    /// The parts, in the order in which guesses and answers name them.
    pub parts: &'a [Part],
    /// The ids that all parts share. If the first four lie in a plane, no guess is accepted.
    pub shared: &'a [Id],
}

/// A facet that serves as the witness for the next `count` points of a list.
#[derive(Clone, Copy, Drop)]
pub struct Run {
    /// A facet of the mesh to which the guess applies.
    pub facet: FacetNo,
    /// The number of points, beginning where the previous run ends.
    pub count: usize,
}

/// A guess which facets of a part stay. Any guess is allowed: `qh_parts::seam` checks each, and accepts only right
/// ones.
#[derive(Clone, Copy, Drop)]
pub struct Guess<'a> {
    /// For each place of the part's mesh, in order, true if the guess is that its facet stays.
    pub stay: &'a [bool],
    /// For each part, in order, the witnesses for its own corners, in the order of its `places`. The entry of the part
    /// itself is not read.
    pub runs: &'a [Vec<Run>],
}
