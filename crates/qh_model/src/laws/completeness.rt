//! The laws which show that a finished surface is the hull.
ghost use Rattle.qh_model.specs.laws.FacetPlanes.{LevelFacetsSpan, PlaneWalkFindsAll};
ghost use Rattle.qh_model.specs.laws.CompletenessLaws.{FacetsSupport, ExtremesAreCorners, ExtremesOfPlaneAreCorners};
ghost use Rattle.qh_model.specs.laws.CompletenessLaws.{PlanesHaveFacets, FinishedIsSolid, ExtremesOfCorners, ExtremesOfPlane};
ghost use Rattle.qh_model.specs.laws.CompletenessLaws.{PolygonsOfFacets};

/// Each live facet of a finished surface is a supporting triple, each extreme id is a corner, and each supporting plane
/// is that of a live facet, with its extreme ids as corners. So the surface is complete.
pub fn nothing_is_missed()
    ensures facets { FacetsSupport }
    ensures corners { ExtremesAreCorners }
    ensures plane_corners { ExtremesOfPlaneAreCorners }
    ensures planes { PlanesHaveFacets }
{}

/// A finished surface determines the hull: its set has dimension 3, the extreme ids are the extremes of the corners, in
/// each plane too, and the polygons are those of the facets' planes.
pub fn finished_surface_is_hull()
    ensures dimension { FinishedIsSolid }
    ensures extremes { ExtremesOfCorners }
    ensures plane_extremes { ExtremesOfPlane }
    ensures polygons { PolygonsOfFacets }
{}

/// The live facets of a finished surface that lie in one plane are connected: a walk over twins from one of them finds
/// all, and each of them spans the plane. So faces can be put together from neighbours.
pub fn planes_hang_together()
    ensures span { LevelFacetsSpan }
    ensures walk { PlaneWalkFindsAll }
{}
