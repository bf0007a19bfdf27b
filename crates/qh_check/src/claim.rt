//! Polygons that are claimed to be those of a set.
ghost use Rattle.std.specs.Prelude.{◌<◌, length};
ghost use Rattle.qh_model.specs.contract.IdSets.{AreIndices};

use qh_model::{Id, Point, Polygon};

/// A set of ids, at least one and each the index of one of the points, and polygons that may be its polygons.
///
/// The caller ensures that the ids rise and have distinct points (`IsIdSet`).
#[derive(Clone, Copy, Drop)]
pub struct ClaimedPolygons<'a> {
    /// The points.
    pub pts: &'a [Point],
    /// The ids of the set.
    pub ids: &'a [Id],
    /// The polygons, which may be any lists of ids.
    pub polygons: &'a [Polygon],
    ghost some: { 0 < length ids.now },
    ghost indices: { AreIndices pts.now ids.now },
}
