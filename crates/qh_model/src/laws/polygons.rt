//! The laws of the polygon of a face.
ghost use Rattle.qh_model.specs.laws.PolygonLaws.{PolygonIsUnique, PolygonByDirection};

/// At most one list is the polygon of a set and a normal, so each face has one right list.
pub fn one_polygon()
    ensures { PolygonIsUnique }
{}

/// A normal of the same direction gives the same polygon, so the normal may come from any triangle of a face.
pub fn polygon_by_direction()
    ensures { PolygonByDirection }
{}
