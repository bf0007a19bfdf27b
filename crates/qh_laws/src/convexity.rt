//! The laws which show that a closed surface is the hull by a test of each edge and one ray.

ghost use Rattle.qh_laws.specs.laws.ConvexLaws.{LocalIsConvex, UnderIsBelow, LocalSupports, SharpIsFace, SharpPolygonIsFace, SharpPolygonsAreFaces};
ghost use Rattle.qh_laws.specs.laws.ConvexLaws.{SharpIsSolid, TrianglePolygonsAreFaces, TrianglePolygonsHaveExtremes};
ghost use Rattle.qh_laws.specs.laws.ScaleLaws.{ScaledVolume, ScaleKeepsDistinct, ScaleKeepsConvex, ScaleKeepsPolygons};
ghost use Rattle.qh_laws.specs.laws.ScaleLaws.{ScaleKeepsExtremes, ScaleKeepsFaces};

/// Consider a closed surface of triangles that turns outwards at no edge, has a place strictly below all its triangles,
/// and is met exactly once by a ray from there. No corner of it is above any of its triangles. So each triangle
/// supports the corners, and each point that lies under one of the triangles is above none.
pub fn locally_convex_is_convex()
    ensures corners { LocalIsConvex }
    ensures below { UnderIsBelow }
    ensures support { LocalSupports }
{}

/// A triangle of a locally convex surface whose neighbours are strictly below it is a face of each set that consists of
/// the corners and other points under triangles. The same holds for a convex polygon of triangles in one plane.
pub fn sharp_polygon_is_face()
    ensures triangle { SharpIsFace }
    ensures polygon { SharpPolygonIsFace }
{}

/// Polygons of this kind, at least one, that close up and are in rising order are all faces of the set, which is a
/// solid. They close up if each triangle is in the plane of one of them, and then their corners are the extreme ids. So
/// a test of each edge, one ray, and a triangle for each point show that polygons are the hull.
pub fn sharp_polygons_are_hull()
    ensures faces { SharpPolygonsAreFaces }
    ensures each { TrianglePolygonsAreFaces }
    ensures extremes { TrianglePolygonsHaveExtremes }
    ensures dimension { SharpIsSolid }
{}

/// A place inside need not be a whole vector; an example is the middle of a tetrahedron. It becomes one at a larger
/// scale of the points, and facts about faces and extreme ids at that scale hold for the points.
pub fn scale_keeps_hull()
    ensures volume { ScaledVolume }
    ensures points { ScaleKeepsDistinct }
    ensures convex { ScaleKeepsConvex }
    ensures polygons { ScaleKeepsPolygons }
    ensures extremes { ScaleKeepsExtremes }
    ensures faces { ScaleKeepsFaces }
{}
