//! The places of facets: those of removed facets, and those of a cone.
ghost use Rattle.std.specs.Prelude.{All, ◌≡◌, ◌+◌, ◌<◌, ◌≤◌, ◌^◌, ℕ, length, reverse, [], ◌++◌, vec_len, vec_capacity};
ghost use Rattle.qh_model.specs.{contract.StoredSurface.facet_at, headline.Sets.Once};
ghost use Rattle.qh_mesh.specs.{contract.Replacement.IsLive, steps.Places.Removed, steps.Places.IsPool};

use crate::facets::{Facet, FacetSide};
use crate::slots::{Slot, note};
use qh_model::FacetNo;

/// Removes the listed facets and frees their places.
pub fn remove(facets: &mut [Facet], free: &mut Vec<FacetNo>, visible: &[FacetNo])
    requires pool { IsPool facets.old (reverse free.old.items) }
    requires live { All (IsLive facets.old) visible.now }
    requires once { Once visible.now }
    requires room { vec_len free.old + length visible.now ≤ vec_capacity free.old }
    ensures facets { Removed facets.old facets.new visible.now (length visible.now) }
    ensures pool { IsPool facets.new (reverse free.new.items) }
    ensures len { vec_len free.new ≡ vec_len free.old + length visible.now }
{
    for f in visible {
        let place = f.index();
        facets[place] = facets[place].removed();
        free.push_reserved(*f);
    }
}

/// Allocates a free place, or a new one at the end if there is no free place.
#[tactic(auto, using(crate::proofs::Pools::pool_pops, crate::proofs::Pools::pool_grows))]
fn allocate(facets: &mut Vec<Facet>, free: &mut Vec<FacetNo>, made: &mut Vec<FacetNo>)
    requires pool { IsPool facets.old.items (made.old.items ++ reverse free.old.items) }
    requires room { vec_len free.old ≡ 0 → vec_len facets.old < vec_capacity facets.old }
    requires made_room { vec_len made.old < vec_capacity made.old }
    ensures pool { IsPool facets.new.items (made.new.items ++ reverse free.new.items) }
    ensures cells { (f : ℕ) → facet_at facets.new.items f ≡ facet_at facets.old.items f }
    ensures longer { vec_len facets.old ≤ vec_len facets.new }
    ensures again { 0 < vec_len free.new → vec_len facets.new ≡ vec_len facets.old }
    ensures len { vec_len facets.new + vec_len free.old ≡ vec_len facets.old + 1 + vec_len free.new }
    ensures made { vec_len made.new ≡ vec_len made.old + 1 }
    ensures capacity { vec_capacity facets.new ≡ vec_capacity facets.old }
    ensures free_capacity { vec_capacity free.new ≡ vec_capacity free.old }
    ensures made_capacity { vec_capacity made.new ≡ vec_capacity made.old }
{
    if let Some(place) = free.pop() {
        made.push_reserved(place);
    } else {
        made.push_reserved(FacetNo::new(facets.len()));
        facets.push_reserved(Facet::none());
    }
}

/// Allocates a place for the facet over each side of a horizon: free places first, then new ones at the end. Each side
/// is entered in the table at its corners.
pub fn allocate_all(
    facets: &mut Vec<Facet>,
    free: &mut Vec<FacetNo>,
    slots: &mut [Slot],
    horizon: &[FacetSide],
    made: &mut Vec<FacetNo>,
)
    requires pool { IsPool facets.old.items (made.old.items ++ reverse free.old.items) }
    requires empty { made.old.items ≡ [] }
    requires room { vec_len facets.old + length horizon.now ≤ vec_capacity facets.old + vec_len free.old }
    requires made_room { length horizon.now ≤ vec_capacity made.old }
    requires few { length horizon.now < 2 ^ 32 }
    ensures pool { IsPool facets.new.items (made.new.items ++ reverse free.new.items) }
    ensures cells { (f : ℕ) → facet_at facets.new.items f ≡ facet_at facets.old.items f }
    ensures longer { vec_len facets.old ≤ vec_len facets.new }
    ensures again { 0 < vec_len free.new → vec_len facets.new ≡ vec_len facets.old }
    ensures len { vec_len facets.new + vec_len free.old ≡ vec_len facets.old + length horizon.now + vec_len free.new }
    ensures made { vec_len made.new ≡ length horizon.now }
{
    for j in 0..horizon.len() {
        allocate(facets, free, made);
        note(slots, horizon[j], j as u32);
    }
}
