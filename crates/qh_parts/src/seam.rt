//! The faces of the parts of a set that stay at a checked seam.
//!
//! Some facets of a part are marked to stay where the corners of the other parts come in. The marks may be
//! any: that they are right is checked here (`staying`, `seams`). Each corner of the others has a witness
//! (`witnesses`): a facet that is removed and below it, or a facet such that it lies between that and the
//! middle of four points that belong to every part (`triangles`). And the facets that stay beside one that
//! is removed have all others strictly below them (`rings`). Then no facet that stays sees a corner of the
//! others (`qh_laws::seam::ring_hides_rest`), though few are tested, and their polygons are faces of the set.
//! `qh_parts_join::join` makes the hull of these and others.

mod marked;
mod rings;
mod seams;
mod staying;
mod triangles;
mod witnesses;

pub use staying::staying_faces;
