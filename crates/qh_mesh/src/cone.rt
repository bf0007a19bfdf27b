//! The cone over a horizon, and its connection to the remaining facets.
ghost use Rattle.std.specs.Prelude.{All, ◌≡◌, ◌≢◌, ◌+◌, ◌*◌, ◌<◌, ◌^◌, ℕ, List, ◌++◌, length, true, slice_index};
ghost use Rattle.std.specs.Prelude.{slice_set};
ghost use Rattle.qh_model.specs.{contract.StoredSurface.facet_at, headline.Sets.Once};
ghost use Rattle.qh_mesh.specs.contract.Edges.{edge_of, facet_of, nth_side, side_of_edge};
ghost use Rattle.qh_mesh.specs.steps.{Kept.with_twin, Horizons.AreNoted, Horizons.IsBalanced, Horizons.side_at};
ghost use Rattle.qh_mesh.specs.steps.{Cones.Joined, Cones.Written, Places.IsPool};

use crate::facets::{EdgeNo, Facet, FacetSide};
use crate::slots::{End, Slot, Table, is_noted, mate};
use qh_model::FacetNo;

/// Sets the twin of a half-edge.
fn set_twin(facets: &mut [Facet], e: EdgeNo, twin: u32)
    requires { facet_of e < length facets.old }
    ensures { facets.new ≡ slice_set facets.old (facet_of e) (with_twin (facet_at facets.old (facet_of e)) (side_of_edge e) twin) }
{
    facets[e.facet().index()].set_twin(e.side(), twin);
}

/// Returns the number of a side of the j-th facet of a list.
fn edge_at(made: &[FacetNo], j: usize, side: usize) -> u32
    requires inside { j < length made.now }
    requires side { side < 3 }
    requires fits { All (λ f. 3 * f + 2 < 2 ^ 32) made.now }
    ensures { result ≡ edge_of (slice_index made.now j) (nth_side side) }
{
    EdgeNo::of(made[j], side).number()
}

/// Sets the twin of each half-edge across the horizon to the side of its facet in the cone. Returns true if the table
/// names each side at both of its corners, so that no two sides start and no two end at one corner.
#[tactic(auto, using(crate::proofs::WrittenFacets::joined_more))]
pub fn join_outer(
    facets: &mut [Facet],
    slots: &[Slot],
    horizon: &[FacetSide],
    made: &[FacetNo],
) -> bool
    requires len { length made.now ≡ length horizon.now }
    requires inside { (j : ℕ) → j < length horizon.now → facet_of (side_at horizon.now j).outer < length facets.old }
    requires apart { (i j : ℕ)
        → i < j → j < length horizon.now → (side_at horizon.now i).outer ≢ (side_at horizon.now j).outer }
    requires fits { All (λ f. 3 * f + 2 < 2 ^ 32) made.now }
    ensures joined { Joined facets.old facets.new horizon.now made.now (length horizon.now) }
    ensures noted { result ≡ true → AreNoted slots.now horizon.now }
{
    let mut are_noted = true;
    for j in 0..horizon.len() {
        let side = horizon[j];
        are_noted &= is_noted(slots, side, End::Finish, j) & is_noted(slots, side, End::Start, j);
        set_twin(facets, side.across(), edge_at(made, j, 0));
    }
    are_noted
}

/// Writes the facets of the cone, each linked to the facets over the adjacent sides of the horizon.
pub fn write_cone(
    facets: &mut [Facet],
    table: Table,
    horizon: &[FacetSide],
    made: &[FacetNo],
    apex: u32,
)
    requires balanced { IsBalanced horizon.now }
    requires are_noted { table.is_complete ≡ true → AreNoted table.slots.now horizon.now }
    requires len { length made.now ≡ length horizon.now }
    requires inside { All (λ f. f < length facets.old) made.now }
    requires once { Once made.now }
    requires fits { All (λ f. 3 * f + 2 < 2 ^ 32) made.now }
    ensures written { Written facets.old facets.new horizon.now made.now apex (length made.now) }
    ensures pool { (places : List ℕ) → IsPool facets.old (made.now ++ places) → IsPool facets.new places }
{
    for j in 0..made.len() {
        let side = horizon[j];
        let next = mate(table, horizon, End::Finish, j);
        let before = mate(table, horizon, End::Start, j);
        let to_apex = edge_at(made, next, 2);
        let from_apex = edge_at(made, before, 1);
        facets[made[j].index()] = Facet::over(side, apex, to_apex, from_apex);
    }
}
