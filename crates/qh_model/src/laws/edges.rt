//! The law of the edges of a solid.
ghost use Rattle.qh_model.specs.laws.EdgeLaws.{OneFaceEachWay, OtherFace};

/// Each edge of a solid lies in two faces, and their polygons run along it in opposite directions. So counting the
/// steps from a lower id to a higher one over all faces counts each edge once.
pub fn edges_lie_in_two_faces()
    ensures one { OneFaceEachWay }
    ensures other { OtherFace }
{}
