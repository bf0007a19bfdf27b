//! The hull of a set of ids by the calling thread. A large set that is long or flat is mapped first. If few ids of a
//! large set are extreme, the hulls of its blocks remove most ids first.
ghost use Rattle.std.specs.Prelude.{◌<◌, IfOk, length};
ghost use Rattle.qh_model.specs.{contract.IdSets.AreIndices, contract.IdSets.IsIdSet, headline.Hull.IsBody};
ghost use Rattle.qh_model.specs.{headline.Predicates.place, headline.Sets.Members, laws.HullLaws.HasExtremes};

use qh_block::{BLOCK_ALONE, WHOLE_ALONE, are_few, extremes, few_are_extreme, hull};
use qh_lattice::reduced;
use qh_model::{Body, Id, Memory, Point};
use qh_polygon::rising_ids;
use std::alloc::Global;

/// Returns the ids that are extreme in their block, and all ids after the first block in which most ids are extreme.
fn extremes_of_blocks(alloc: Global, pts: &[Point], ids: &[Id]) -> Result<Vec<Id>, Memory>
    requires indices { AreIndices pts.now ids.now }
    requires set { IsIdSet pts.now ids.now }
    ensures { IfOk result (λ v. HasExtremes pts.now ids.now v.items) }
{
    let mut kept = Vec::new(alloc);
    let mut rest = ids;
    while !rest.is_empty() {
        let (block, later) = rest.split_at(rest.len().min(BLOCK_ALONE));
        let found = extremes(alloc, pts, block)?;
        kept.extend_from_slice(&found)?;
        if !are_few(found.len(), block.len()) {
            kept.extend_from_slice(later)?;
            return Ok(kept);
        }
        rest = later;
    }
    Ok(kept)
}

/// Returns the hull of a set of ids, from the extreme ids of its blocks.
fn hull_by_blocks(alloc: Global, pts: &[Point], ids: &[Id]) -> Result<Body, Memory>
    requires some { 0 < length ids.now }
    requires indices { AreIndices pts.now ids.now }
    requires set { IsIdSet pts.now ids.now }
    ensures { IfOk result (IsBody (place pts.now) (Members ids.now)) }
{
    let kept = extremes_of_blocks(alloc, pts, ids)?;
    let part = rising_ids(alloc, &kept)?;
    hull(alloc, pts, &part)
}

/// Returns the hull of a set of ids, without a map: by blocks if the set is large, and few of its first ids are extreme.
fn body_as_given(alloc: Global, pts: &[Point], ids: &[Id]) -> Result<Body, Memory>
    requires some { 0 < length ids.now }
    requires indices { AreIndices pts.now ids.now }
    requires set { IsIdSet pts.now ids.now }
    ensures { IfOk result (IsBody (place pts.now) (Members ids.now)) }
{
    if ids.len() > WHOLE_ALONE && few_are_extreme(alloc, pts, ids)? {
        hull_by_blocks(alloc, pts, ids)
    } else {
        hull(alloc, pts, ids)
    }
}

/// Returns the hull of a set of ids; it is computed from images of the points where a map pays.
pub fn body_alone(alloc: Global, pts: &[Point], ids: &[Id]) -> Result<Body, Memory>
    requires some { 0 < length ids.now }
    requires indices { AreIndices pts.now ids.now }
    requires set { IsIdSet pts.now ids.now }
    ensures { IfOk result (IsBody (place pts.now) (Members ids.now)) }
{
    match reduced(alloc, pts, ids)? {
        Some(images) => body_as_given(alloc, &images, ids),
        None => body_as_given(alloc, pts, ids),
    }
}
