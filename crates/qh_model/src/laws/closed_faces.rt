//! The laws of supporting triangles and of faces that close up.
ghost use Rattle.qh_model.specs.laws.ClosedFaceLaws.{ClosedMissNoPlane, ClosedMissNoExtreme, ClosedFacesAreAll, ClosedFacesHaveExtremes, FacesClose};

/// Among supporting triangles that close up, each supporting plane has one, and each extreme id lies in the plane of
/// one. So a list of triangles that closes up is complete, and no further search is needed.
pub fn closed_triangles_miss_nothing()
    ensures planes { ClosedMissNoPlane }
    ensures extremes { ClosedMissNoExtreme }
{}

/// Faces that close up, at least one, are all faces of the set, and their corners are its extreme ids. So a hull is
/// checked by its planes and by counting the steps along its edges. The faces of a solid close up, so the check accepts
/// every right hull.
pub fn closed_faces_are_hull()
    ensures faces { ClosedFacesAreAll }
    ensures extremes { ClosedFacesHaveExtremes }
    ensures close { FacesClose }
{}
