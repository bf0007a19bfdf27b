//! The ring: the facets that stay and have a removed neighbour.
ghost use Rattle.std.specs.Prelude.{◌≡◌, ◌<◌, ◌↔◌, ◌⊎◌, ◌++◌, ◌∷◌, [], ℕ, List, map, IfOk, OnOk, IsTrue, false};
ghost use Rattle.qh_model.specs.{contract.StoredSurface.surface_of, headline.Predicates.place, headline.Sets.In};
ghost use Rattle.qh_mesh.specs.contract.{Edges.nth_side, Replacement.IsLive};
ghost use Rattle.qh_places.specs.contract.Places.{ArePlaces};
ghost use Rattle.qh_surface.specs.contract.{NamedMeshes.named, Walks.mark_at};
ghost use Rattle.qh_laws.specs.contract.Seam.{IsRing};
ghost use Rattle.qh_parts.specs.steps.{RingKeys.facet_in, Witnesses.AreUnder, Witnesses.HasPlane};

use crate::seam::marked::Marked;
use qh_mesh::FacetNo;
use qh_model::Id;
use qh_places::{Budget, Places};
use qh_pred::Plane;
use std::alloc::{AllocError, Global};

/// The number of facets of the ring whose planes are tested together.
const GROUP: usize = 4;

/// The range of facets in a key: 2^64.
const PLACE: u128 = 18446744073709551616;

/// Packs the position of a facet's first corner and the facet into one number, so that sorting the numbers sorts by
/// position.
fn ring_key(first: Id, f: FacetNo) -> u128
    ensures { facet_in result ≡ f }
{
    u128::from(first.number()) * PLACE + u128::from(f.index() as u64)
}

/// Returns the facets of keys.
fn facets_of(alloc: Global, keys: Vec<u128>) -> Result<Vec<FacetNo>, AllocError>
    ensures { IfOk result (λ v. v.items ≡ map facet_in keys.items) }
{
    keys.into_iter()
        .map(|key| FacetNo::new((key % PLACE) as usize))
        .collect(alloc)
}

impl Marked<'_> {
    /// Returns true if the neighbour over a side of a live facet is removed.
    fn goes_over(self, f: FacetNo, side: usize) -> bool
        requires live { IsLive self.surface.now.mesh f }
        requires side { side < 3 }
        ensures { IsTrue result ↔ (mark_at self.entry.stay.now ((surface_of self.entry.surface.now.mesh).over f (nth_side side)) ≡ false) }
    {
        let mesh = &self.surface.mesh;
        let next = mesh.facet_of(mesh.across(f, side));
        !self.stay[next.index()]
    }

    /// Returns true if a live facet stays beside one that is removed.
    fn is_ring(self, f: FacetNo) -> bool
        requires { IsLive self.surface.now.mesh f }
        ensures { IsRing (surface_of self.entry.surface.now.mesh) (mark_at self.entry.stay.now) f → IsTrue result }
    {
        if !self.stay[f.index()] {
            return false;
        }
        self.goes_over(f, 0) || self.goes_over(f, 1) || self.goes_over(f, 2)
    }

    /// Appends the key of a live facet if the facet is in the ring.
    fn list_ring(self, f: FacetNo, keys: &mut Vec<u128>) -> Result<(), AllocError>
        requires { IsLive self.surface.now.mesh f }
        ensures { OnOk result ((map facet_in keys.new.items ≡ map facet_in keys.old.items ++ f ∷ [])
            ⊎ ((IsRing (surface_of self.entry.surface.now.mesh) (mark_at self.entry.stay.now) f → ⊥) × (keys.new.items ≡ keys.old.items))) }
    {
        if !self.is_ring(f) {
            return Ok(());
        }
        let [first, _, _] = self.surface.mesh.facet(f);
        keys.push(ring_key(first, f))?;
        Ok(())
    }

    /// Returns the keys of the facets of the ring, unsorted.
    fn ring_keys(self, alloc: Global) -> Result<Vec<u128>, AllocError>
        ensures all { IfOk result (λ v. (f : ℕ) → IsRing (surface_of (named self.entry.surface.now)) (mark_at self.entry.stay.now) f
            → In f (map facet_in v.items)) }
        ensures live { IfOk result (λ v. (f : ℕ) → In f (map facet_in v.items) → IsLive self.entry.surface.now.mesh f) }
    {
        let mut keys = Vec::new(alloc);
        for f in self.surface.mesh.live() {
            self.list_ring(f, &mut keys)?;
        }
        Ok(keys)
    }

    /// Returns the facets of the ring, ordered so that near ones follow each other.
    pub fn ring(self, alloc: Global) -> Result<Vec<FacetNo>, AllocError>
        ensures all { IfOk result (λ v. (f : ℕ) → IsRing (surface_of (named self.entry.surface.now)) (mark_at self.entry.stay.now) f
            → In f v.items) }
        ensures live { IfOk result (λ v. (f : ℕ) → In f v.items → IsLive self.entry.surface.now.mesh f) }
    {
        let mut keys = self.ring_keys(alloc)?;
        keys.sort_unstable();
        facets_of(alloc, keys)
    }

    /// Returns the planes of live facets.
    fn planes_of(self, alloc: Global, facets: &[FacetNo]) -> Result<Vec<Plane>, AllocError>
        requires { (f : ℕ) → In f facets.now → IsLive self.surface.now.mesh f }
        ensures { IfOk result (λ v. (f : ℕ) → In f facets.now
            → HasPlane (place self.entry.pts.now) (surface_of (named self.entry.surface.now)) v.items f) }
    {
        let mut planes = Vec::with_capacity(alloc, facets.len())?;
        for f in facets {
            planes.push(self.triangle(*f).plane())?;
        }
        Ok(planes)
    }

    /// Returns true if the points of all ids of the places are strictly below live facets. It is faster if near facets
    /// follow each other. Returns false, too, if the budget runs out.
    pub fn are_over(
        self,
        alloc: Global,
        facets: &[FacetNo],
        places: &Places,
        budget: &mut Budget,
    ) -> Result<bool, AllocError>
        requires { (f : ℕ) → In f facets.now → IsLive self.surface.now.mesh f }
        ensures { IfOk result (λ over. IsTrue over → (ids : List ℕ) → ArePlaces self.entry.pts.now ids places.now
            → (f : ℕ) → In f facets.now → AreUnder (place self.entry.pts.now) (surface_of (named self.entry.surface.now)) f ids) }
    {
        let mut rest = facets;
        while rest.len() > 0 {
            let origin = self.triangle(rest[0]).a;
            let (group, others) = rest.split_at(GROUP.min(rest.len()));
            let planes = self.planes_of(alloc, group)?;
            let below = places.are_below(alloc, origin, &planes, budget)?;
            if !below {
                return Ok(false);
            }
            rest = others;
        }
        Ok(true)
    }
}
