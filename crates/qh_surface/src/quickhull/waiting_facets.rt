//! The facets that wait to be processed.
ghost use Rattle.std.specs.Prelude.{All, ◌≡◌, ◌+◌, ◌<◌, ◌≤◌, ◌⊎◌, ℕ, [], ◌∷◌, ◌++◌, length, OnOk, IfNone, IfSome};
ghost use Rattle.std.specs.Prelude.{vec_len, vec_capacity};
ghost use Rattle.qh_model.specs.headline.Sets.{In};
ghost use Rattle.qh_surface.specs.contract.OutsideSets.{set_of, listed};
ghost use Rattle.qh_surface.specs.steps.Runs.{RunState, with_waiting, AreDone, IsUnderWay, IsPicked};

use crate::outside_sets::OutsideSets;
use crate::quickhull::turns::Turns;
use qh_mesh::FacetNo;
use qh_model::Id;
use std::alloc::AllocError;

/// Adds a facet if it has an outside set. It is pushed, then popped if it has none; this keeps the loop free of
/// branches.
fn add(pending: &mut Vec<FacetNo>, sets: &OutsideSets, facet: FacetNo)
    requires place { facet < length sets.now.sets }
    requires room { vec_len pending.old < vec_capacity pending.old }
    ensures items { (pending.new.items ≡ pending.old.items ++ facet ∷ [])
        ⊎ ((pending.new.items ≡ pending.old.items) × (set_of sets.now facet ≡ [])) }
    ensures len { vec_len pending.new ≤ vec_len pending.old + 1 }
    ensures capacity { vec_capacity pending.new ≡ vec_capacity pending.old }
{
    pending.push_reserved(facet);
    if sets.first(facet).is_none() {
        let _ = pending.take_last();
    }
}

/// Adds those of the facets that have an outside set.
pub fn enqueue(
    pending: &mut Vec<FacetNo>,
    sets: &OutsideSets,
    made: &[FacetNo],
) -> Result<(), AllocError>
    requires { All (λ f. f < length sets.now.sets) made.now }
    ensures within { All (λ f. f < length sets.now.sets) pending.old.items → All (λ f. f < length sets.now.sets) pending.new.items }
    ensures kept { (f : ℕ) → In f pending.old.items → In f pending.new.items }
    ensures made { OnOk result ((f p : ℕ) → In f made.now → In p (set_of sets.now f) → In f pending.new.items) }
{
    pending.reserve(made.len())?;
    for facet in made {
        add(pending, sets, *facet);
    }
    Ok(())
}

/// Removes and returns the next facet that has an outside set, and the first point of that set, which leaves all sets.
/// Facets without an outside set are skipped.
pub fn next_apex(
    pending: &mut Vec<FacetNo>,
    turns: &mut Turns,
    sets: &mut OutsideSets,
) -> Option<(FacetNo, Id)>
    requires { All (λ f. f < length sets.old.sets) pending.old.items }
    ensures done { IfNone result ((s : RunState)
        → IsUnderWay (with_waiting s sets.old pending.old.items) → AreDone s.points s.mesh) }
    ensures picked { IfSome result (λ next. (s : RunState)
        → IsUnderWay (with_waiting s sets.old pending.old.items) → IsPicked (with_waiting s sets.new pending.new.items) next.0 next.1) }
    ensures listed { IfSome result (λ _. listed sets.new + 1 ≡ listed sets.old) }
{
    while pending.len() > 0 {
        let facet = pending.swap_remove(turns.next(pending.len()));
        if let Some(apex) = sets.take_first(facet) {
            return Some((facet, apex));
        }
    }
    None
}
