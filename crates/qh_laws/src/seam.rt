//! The laws of joining the hulls of parts of a set at a seam.

ghost use Rattle.qh_laws.specs.laws.PointLaws.{RingHidesRest, SidesHideRest, LevelIsInPolygon, WithinIsBelow, BetweenIsBelow};
ghost use Rattle.qh_laws.specs.laws.PointLaws.{MiddleIsInner, BetweenFourIsBelow, BelowIsCombination, SlabIsBelow};
ghost use Rattle.qh_laws.specs.laws.PartLaws.{StrictIsClear, SeamOfOthers, StayingSupports, StayingHasPolygon};
ghost use Rattle.qh_laws.specs.laws.PartLaws.{ExtremesAreKept, FacesOfKept, JoinedAreFaces, JoinedHaveExtremes, PartIsSolid};

/// A point above a removed facet, and above no facet of the ring (the facets that stay beside a removed one),
/// is above no facet that stays. So only the ring is tested.
pub fn ring_hides_rest()
    ensures { RingHidesRest }
{}

/// A point in the plane of a facet, and above no facet beside that plane, is above no facet at all, and lies
/// in the polygon of the plane. So points in a plane inside the ring need no test.
pub fn sides_hide_rest()
    ensures below { SidesHideRest }
    ensures polygon { LevelIsInPolygon }
{}

/// A point between a facet and a place inside, as a member or the middle of a tetrahedron of members, is above no
/// facet, and a convex combination of the set: five signs decide it.
pub fn within_is_settled()
    ensures below { WithinIsBelow }
    ensures member { BetweenIsBelow }
    ensures inner { MiddleIsInner }
    ensures middle { BetweenFourIsBelow }
    ensures combination { BelowIsCombination }
{}

/// Suppose that each kept point is settled or lies above a removed facet, and that no kept point lies above the ring.
/// Then the facets that stay support all points, and the clear ones have the polygons of all points. The part's own
/// points need no test. If the points of the other parts lie strictly below the ring, every facet that stays is clear.
/// So each part can list its faces by itself.
pub fn staying_faces_are_faces()
    ensures support { StayingSupports }
    ensures polygon { StayingHasPolygon }
    ensures clear { StrictIsClear }
    ensures others { SeamOfOthers }
{}

/// The corners of the parts include all extreme ids, and the faces of a list that includes them are those of all
/// points: the other points need no test.
pub fn corners_are_enough()
    ensures extremes { ExtremesAreKept }
    ensures faces { FacesOfKept }
{}

/// Faces of parts and others, at least one, that close up are all faces, and have the extreme ids as corners. A set
/// that has a part with a finished surface is a solid.
pub fn joined_faces_are_hull()
    ensures faces { JoinedAreFaces }
    ensures extremes { JoinedHaveExtremes }
    ensures dimension { PartIsSolid }
{}

/// A point that is bounded along one direction, and by a box along the rest of another direction, is bounded along the
/// other. So planes can be tested against boxes that are not parallel to them.
pub fn slab_is_below()
    ensures { SlabIsBelow }
{}
