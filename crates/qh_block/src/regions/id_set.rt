//! Sets of ids of a list of points.
ghost use Rattle.qh_model.specs.contract.IdSets.{AreIndices};

use qh_model::{Id, Point};

/// Ids, each the index of one of the points.
#[derive(Clone, Copy, Drop)]
pub struct IdSet<'a> {
    /// The points, by id.
    pub pts: &'a [Point],
    /// The ids of the set, in any order.
    pub ids: &'a [Id],
    ghost indices: { AreIndices pts.now ids.now },
}
