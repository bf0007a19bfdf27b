//! The laws of extreme ids and of supporting planes.
ghost use Rattle.qh_model.specs.laws.ExtremeLaws.{GreatestIsExtreme, MembersAreCombinations, UnionOfExtremes};
ghost use Rattle.qh_model.specs.laws.FaceLaws.{ExtremesOfFace, SupportOfExtremes, PlanesOfExtremes};
ghost use Rattle.qh_model.specs.laws.DimensionLaws.{DimensionOfExtremes};
ghost use Rattle.qh_model.specs.laws.HullLaws.{BodyOfExtremes, BodyOfPart, ExtremesOfPart, PolygonsOfExtremes, TriplesOfExtremes};

/// The member that is greatest along a direction is extreme; among equals, the coordinates decide. This gives a hull
/// its first corners.
pub fn greatest_is_extreme()
    ensures { GreatestIsExtreme }
{}

/// Each member of a set of distinct points is a convex combination of the extreme ids, so the extreme ids have the same
/// hull as the set.
pub fn members_are_combinations()
    ensures { MembersAreCombinations }
{}

/// The extreme ids of a union are those of the union of its blocks' extreme ids. A set and its extreme ids have the
/// same dimension, the same polygons and the same hull. So blocks can be hulled separately, and then their extreme ids
/// together.
pub fn union_extremes()
    ensures union { UnionOfExtremes }
    ensures dimension { DimensionOfExtremes }
    ensures polygons { PolygonsOfExtremes }
    ensures hull { BodyOfExtremes }
{}

/// A part of a set that contains all extreme ids of the set has the same extreme ids and the same hull. So ids that are
/// known not to be extreme can be left out.
pub fn parts_with_extremes()
    ensures extremes { ExtremesOfPart }
    ensures hull { BodyOfPart }
{}

/// The extreme ids of a face are the extreme ids of the set in its plane, and a plane with no extreme id outside has no
/// member outside. So a hull can be computed from extreme ids alone.
pub fn extremes_of_faces()
    ensures face { ExtremesOfFace }
    ensures support { SupportOfExtremes }
{}

/// Each supporting plane of a set is spanned by three of its extreme ids, with the same side outside. Three extreme ids
/// span a supporting plane of the set exactly if they span one of the extreme ids.
pub fn planes_of_extremes()
    ensures spanned { PlanesOfExtremes }
    ensures triples { TriplesOfExtremes }
{}
