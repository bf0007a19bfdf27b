//! Seams of a marked part to the corners of another.
ghost use Rattle.std.specs.Prelude.{◌<◌, ℕ, List, IfOk, IsTrue};
ghost use Rattle.qh_model.specs.{contract.StoredSurface.surface_of, headline.Predicates.place, headline.Sets.In};
ghost use Rattle.qh_mesh.specs.contract.Replacement.{IsLive};
ghost use Rattle.qh_places.specs.contract.Places.{ArePlaces};
ghost use Rattle.qh_surface.specs.contract.{NamedMeshes.named, Walks.mark_at};
ghost use Rattle.qh_parts.specs.steps.Witnesses.{AreUnder, IsAnswered};

use crate::seam::marked::Marked;
use crate::seam::triangles::Four;
use crate::seam::witnesses::are_answered;
use qh_mesh::FacetNo;
use qh_parts_join::{Part, Run};
use qh_places::Budget;
use std::alloc::{AllocError, Global};

impl Marked<'_> {
    /// Returns true if it is shown that the marked facets stay when the corners of another part are added. Each of
    /// these corners has a witness, by the middle of four points of the part, and all are strictly below the facets of
    /// the ring. Returns false, too, if the budget runs out.
    pub fn is_apart(
        self,
        alloc: Global,
        ring: &[FacetNo],
        four: &Four,
        other: &Part,
        runs: &[Run],
        budget: &mut Budget,
    ) -> Result<bool, AllocError>
        requires live { (f : ℕ) → In f ring.now → IsLive self.surface.now.mesh f }
        ensures answers { IfOk result (λ yes. IsTrue yes → (ids : List ℕ) → ArePlaces self.entry.pts.now ids other.now.places
            → (l : ℕ) → In l ids → IsAnswered (place self.entry.pts.now) (surface_of (named self.entry.surface.now))
            (mark_at self.entry.stay.now) four.now (place self.entry.pts.now l)) }
        ensures ring { IfOk result (λ yes. IsTrue yes → (ids : List ℕ) → ArePlaces self.entry.pts.now ids other.now.places
            → (f : ℕ) → In f ring.now → AreUnder (place self.entry.pts.now) (surface_of (named self.entry.surface.now)) f ids) }
    {
        if !are_answered(self, four, runs, &other.places.points) {
            return Ok(false);
        }
        self.are_over(alloc, ring, &other.places, budget)
    }
}
