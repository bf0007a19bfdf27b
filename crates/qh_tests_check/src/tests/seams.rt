//! A cube in two parts: four corners belong to both, and each part has two more. The square at x = 0 stays of one part,
//! and the square at x = 1 of the other.
ghost use Rattle.std.specs.{Prelude.IfOk, Prelude.IfSome, List.All};
ghost use Rattle.qh_model.specs.contract.IdSets.{AreIndices};
ghost use Rattle.qh_parts_join.specs.contract.Parts.{IsPartOf};

mod guess;
mod seam;

use qh_fixtures::ids::ids_of;
use qh_model::{Id, Memory, Point};
use qh_parts_guess::{Marks, is_worth, marks_of};
use qh_parts_join::{Divided, Part};
use std::alloc::Global;

/// The corners of both parts.
const SHARED: [u32; 4] = [0, 3, 5, 6];

/// The other corners of each part.
const OWN: [[u32; 2]; 2] = [[1, 2], [4, 7]];

/// The parts of the cube, and the ids that belong to both.
#[derive(Drop)]
struct Halves {
    parts: Vec<Part>,
    shared: Vec<Id>,
}

/// Returns the part with two corners of its own, by their indices, and the shared ones; `None` if it is not solid.
fn part_with(
    alloc: Global,
    pts: &[Point],
    own: &[u32],
    shared: &[Id],
) -> Result<Option<Part>, Memory>
    requires shared { AreIndices pts.now shared.now }
    ensures { IfOk result (λ found. IfSome found (IsPartOf pts.now shared.now)) }
{
    let mut listed = ids_of(alloc, pts, own)?;
    listed.extend_from_slice(shared)?;
    Part::of(alloc, pts, &listed, shared)
}

/// Returns the cube, whose corners are these points, in its two parts; `None` if one of them is not solid.
fn halves_of(alloc: Global, pts: &[Point]) -> Result<Option<Halves>, Memory>
    ensures parts { IfOk result (λ found. IfSome found (λ h. All (IsPartOf pts.now h.shared.items) h.parts.items)) }
    ensures shared { IfOk result (λ found. IfSome found (λ h. AreIndices pts.now h.shared.items)) }
{
    let shared = ids_of(alloc, pts, &SHARED)?;
    let Some(low) = part_with(alloc, pts, &OWN[0], &shared)? else {
        return Ok(None);
    };
    let Some(high) = part_with(alloc, pts, &OWN[1], &shared)? else {
        return Ok(None);
    };
    let mut parts = Vec::new(alloc);
    parts.push(low)?;
    parts.push(high)?;
    Ok(Some(Halves { parts, shared }))
}

/// Returns the guess for the first of two parts, and true if a seam pays.
fn first_marks(alloc: Global, set: Divided) -> Result<(Marks, bool), Memory> {
    let marks = marks_of(alloc, set, 0)?;
    Ok((marks, is_worth(set)))
}
