//! Checks if polygons are those of a set, by computing its hull.
ghost use Rattle.std.specs.Prelude.{◌≡◌, ◌↔◌, IfOk, IsTrue};
ghost use Rattle.qh_model.specs.{contract.IdSets.IsIdSet, headline.Predicates.place, headline.Sets.Members};
ghost use Rattle.qh_check.specs.contract.Claims.{ArePolygonsOf};

use crate::claim::ClaimedPolygons;
use crate::faces::are_same;
use qh_block::hull;
use qh_model::{Memory, Polygon};
use std::alloc::Global;

/// Returns true if two lists of polygons are the same.
fn are_same_polygons(polygons: &[Polygon], others: &[Polygon]) -> bool
    ensures { IsTrue result ↔ (polygons.now ≡ others.now) }
{
    if polygons.len() != others.len() {
        return false;
    }
    for position in 0..polygons.len() {
        if !are_same(polygons[position].ids(), others[position].ids()) {
            return false;
        }
    }
    true
}

/// Returns true if polygons are those of the hull of a set.
pub(crate) fn are_polygons_of(alloc: Global, claim: ClaimedPolygons) -> Result<bool, Memory>
    ensures { IfOk result (λ b. IsIdSet claim.entry.pts.now claim.entry.ids.now → IsTrue b
        ↔ ArePolygonsOf (place claim.entry.pts.now) (Members claim.entry.ids.now) claim.entry.polygons.now) }
{
    let body = hull(alloc, claim.pts, claim.ids)?;
    Ok(are_same_polygons(&body.polygons, claim.polygons))
}
