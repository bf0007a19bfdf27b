//! The faces that a part contributes: those of its facets that stay when the corners of the other parts are added.
ghost use Rattle.std.specs.Prelude.{◌≡◌, ◌<◌, ℕ, List, IfOk, IfSome, IsTrue, length, slice_index_or};
ghost use Rattle.std.specs.List.{All, flat_map};
ghost use Rattle.qh_model.specs.{contract.IdSets.HasDistinctPoints, headline.Predicates.place};
ghost use Rattle.qh_model.specs.headline.Sets.{In, Members};
ghost use Rattle.qh_surface.specs.contract.Walks.{mark_at};
ghost use Rattle.qh_laws.specs.contract.Parts.{IsPartFace};
ghost use Rattle.qh_parts_join.specs.contract.Parts.{ids_in, KeepsCorners, IsPartOf};
ghost use Rattle.qh_parts_join.specs.declared.parts.Part.{Part};
ghost use Rattle.qh_parts.specs.contract.Staying.{IsStayingPart, CloseUp};

use crate::seam::marked::Marked;
use crate::seam::triangles::four_of;
use qh_block::{PartedFaces, parted_faces};
use qh_model::Memory;
use qh_parts_join::{Divided, Guess, Part};
use qh_places::Budget;
use std::alloc::Global;

/// The budget of blocks and points to test, for each facet of a part and each part of the set, when the corners of the
/// other parts are shown to be below the part's ring. Four parts of a round set test 5; parts of an ellipsoid along the
/// axes test 9, and 6 and 2 at 16. The threads of all parts together then take at most a fifth of the time of the hull
/// by one thread.
const LOOKED_FOR_EACH: u32 = 32;

/// Returns true if the guess for the part of this number is shown to be right. A right guess may be refused, as when
/// the budget runs out.
fn stays<'a>(
    alloc: Global,
    set: Divided<'a>,
    number: usize,
    guess: Guess<'a>,
) -> Result<bool, Memory>
    requires number { number < length set.parts.now }
    requires parts { All (IsPartOf set.pts.now set.shared.now) set.parts.now }
    ensures marks { IfOk result (λ yes. IsTrue yes → (d : Part)
        → length (slice_index_or set.entry.parts.now number d).surface.mesh ≡ length guess.entry.stay.now) }
    ensures part { IfOk result (λ yes. IsTrue yes → (d : Part) → IsStayingPart set.entry.pts.now set.entry.shared.now set.entry.parts.now
        (slice_index_or set.entry.parts.now number d) (mark_at guess.entry.stay.now)) }
{
    let part = &set.parts[number];
    if guess.stay.len() != part.surface.mesh.places() || guess.runs.len() != set.parts.len() {
        return Ok(false);
    }
    let Some(four) = four_of(set.pts, set.shared) else {
        return Ok(false);
    };
    let marked = Marked {
        pts: set.pts,
        surface: &part.surface,
        stay: guess.stay,
    };
    let ring = marked.ring(alloc)?;
    let count = part.surface.mesh.places().saturating_mul(set.parts.len());
    let mut budget = Budget::for_each(count, LOOKED_FOR_EACH);
    for other in 0..set.parts.len() {
        if other != number {
            let apart = marked.is_apart(
                alloc,
                &ring,
                &four,
                &set.parts[other],
                &guess.runs[other],
                &mut budget,
            )?;
            if !apart {
                return Ok(false);
            }
        }
    }
    Ok(true)
}

/// Returns the faces of the part of this number, if the guess which facets of it stay is shown to be right. The
/// contract allows `None` in every case. The chosen faces, those of its marked facets, are faces of the set. The other
/// faces are removed.
///
/// # Errors
///
/// `Memory` if an allocation failed.
pub fn staying_faces<'a>(
    alloc: Global,
    set: Divided<'a>,
    number: usize,
    guess: Guess<'a>,
) -> Result<Option<PartedFaces>, Memory>
    requires number { number < length set.parts.now }
    requires parts { All (IsPartOf set.pts.now set.shared.now) set.parts.now }
    ensures stay { IfOk result (λ found. IfSome found (λ v. (ids kept : List ℕ) → HasDistinctPoints (place set.entry.pts.now) (Members ids)
        → ((l : ℕ) → In l (flat_map ids_in set.entry.parts.now) → In l ids) → KeepsCorners set.entry.parts.now set.entry.shared.now kept
        → (q : List ℕ) → In q v.chosen → IsPartFace (place set.entry.pts.now) ids kept q)) }
    ensures closed { IfOk result (λ found. IfSome found (λ v. CloseUp set.entry.pts.now set.entry.parts.now v.chosen v.others.items)) }
{
    let stays = stays(alloc, set, number, guess)?;
    if !stays {
        return Ok(None);
    }
    let part = &set.parts[number];
    let faces = parted_faces(alloc, set.pts, &part.surface, guess.stay)?;
    Ok(Some(faces))
}
