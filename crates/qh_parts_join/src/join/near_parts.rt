//! Parts with few corners to test against some planes.
ghost use Rattle.qh_places.specs.contract.Near.{IsNear};

use qh_places::{Near, Places};

/// The own corners of a part, with the positions to test against some planes.
#[derive(Drop)]
pub(crate) struct NearPart<'a> {
    pub places: &'a Places,
    pub near: Near,
    ghost found: { IsNear places.now.points.items near },
}

/// Returns an estimate of how many blocks and points of the parts are tested against `planes` planes.
pub(crate) fn cost_of(nears: &[NearPart], planes: usize) -> usize {
    let mut cost = 0usize;
    for part in nears {
        cost = cost.saturating_add(part.near.cost(planes));
    }
    cost
}
