//! The laws of fans of triangles.
ghost use Rattle.qh_model.specs.laws.FanLaws.{CornersSupport, FansSupport, EdgesAreCounted};

/// In dimension 3 each triangle of the fan of a face is a supporting triple, counterclockwise seen from outside: it has
/// an area, and no point of the set is above its plane. The same holds for any triangle of two neighbours and a third
/// corner of a face.
pub fn fan_triangles_support()
    ensures corners { CornersSupport }
    ensures fans { FansSupport }
{}

/// The number of edges that the text of fans states equals the number of the definition of edges, for any faces.
pub fn edges_are_counted()
    ensures { EdgesAreCounted }
{}
