//! The laws which show that a hull is unique.
ghost use Rattle.qh_model.specs.laws.DimensionLaws.{DimensionIsUnique};
ghost use Rattle.qh_model.specs.laws.HullLaws.{PolygonsAreUnique, EdgeCountIsUnique, RisingListIsUnique};
ghost use Rattle.qh_model.specs.laws.HullLaws.{DistinctIdsAreUnique, BodyIsUnique, HullIsUnique, TextIsUnique};

/// No two hulls are right for one list of points, and no two texts are right for one list of points and outputs. So an
/// answer does not depend on how it was found.
pub fn one_hull()
    ensures body { BodyIsUnique }
    ensures hull { HullIsUnique }
    ensures text { TextIsUnique }
{}

/// Each part of a hull is unique: the distinct ids, each rising list of a set, the dimension, the polygons, and the
/// number of edges.
pub fn one_value_each()
    ensures distinct { DistinctIdsAreUnique }
    ensures rising { RisingListIsUnique }
    ensures dimension { DimensionIsUnique }
    ensures polygons { PolygonsAreUnique }
    ensures edges { EdgeCountIsUnique }
{}
