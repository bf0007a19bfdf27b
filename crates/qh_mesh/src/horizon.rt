//! The horizon of removed facets: their sides across which a facet remains.
ghost use Rattle.std.specs.Prelude.{All, ◌≡◌, ◌+◌, ◌*◌, ◌<◌, ◌≤◌, length, filter, [], ◌∷◌, ◌++◌, vec_len, vec_capacity};
ghost use Rattle.qh_model.specs.contract.StoredSurface.{facet_at};
ghost use Rattle.qh_mesh.specs.contract.Edges.{facet_of};
ghost use Rattle.qh_mesh.specs.steps.Horizons.{is_open, open_sides, HasSidesInside};

use crate::facets::{Facet, FacetSide};
use qh_model::FacetNo;

/// Adds a side to the horizon if a live facet lies across it. The side is always pushed, then popped if it is not
/// needed: which sides are open is unpredictable, and changing a count costs less than a mispredicted branch.
fn add_side(facets: &[Facet], side: FacetSide, horizon: &mut Vec<FacetSide>)
    requires outer { facet_of side.outer < length facets.now }
    requires room { vec_len horizon.old < vec_capacity horizon.old }
    ensures items { horizon.new.items ≡ horizon.old.items ++ filter (is_open facets.now) (side ∷ []) }
    ensures len { vec_len horizon.new ≤ vec_len horizon.old + 1 }
    ensures capacity { vec_capacity horizon.new ≡ vec_capacity horizon.old }
{
    horizon.push_reserved(side);
    if !facets[side.across().facet().index()].is_live() {
        let _ = horizon.take_last();
    }
}

/// Returns the facet at a place.
fn facet_in(facets: &[Facet], f: FacetNo) -> Facet
    requires { f < length facets.now }
    ensures { result ≡ facet_at facets.now f }
{
    facets[f.index()]
}

/// Gathers the sides of the listed facets across which a live facet lies.
pub fn gather(facets: &[Facet], visible: &[FacetNo], horizon: &mut Vec<FacetSide>)
    requires inside { All (HasSidesInside facets.now) visible.now }
    requires empty { horizon.old.items ≡ [] }
    requires room { 3 * length visible.now ≤ vec_capacity horizon.old }
    ensures items { horizon.new.items ≡ open_sides facets.now visible.now }
    ensures count { vec_len horizon.new ≤ 3 * length visible.now }
{
    for f in visible {
        let facet = facet_in(facets, *f);
        add_side(facets, facet.side(0), horizon);
        add_side(facets, facet.side(1), horizon);
        add_side(facets, facet.side(2), horizon);
    }
}
