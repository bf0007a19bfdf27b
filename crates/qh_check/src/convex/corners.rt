//! The corners of triangles among the ids of a set, and the ids that are not corners.
ghost use Rattle.std.specs.Prelude.{◌≡◌, ◌<◌, ℕ, All, IfOk, IfSome, IsTrue, filter, length};
ghost use Rattle.qh_model.specs.{contract.IdSets.AreIndices, headline.Sets.In, laws.ClosedSurfaceLaws.IsCornerOf};
ghost use Rattle.qh_check.specs.steps.CornerMarks.{AreHidden, IsMarked, is_unmarked};
ghost use Rattle.qh_check.specs.steps.Triangles.{IsBelow};

use crate::convex::triangles::Triangle;
use qh_model::{Id, Point};
use std::alloc::{AllocError, Global};

/// Returns a mark for each point, set if its index is one of some ids.
fn marks_of_ids(alloc: Global, pts: &[Point], ids: &[Id]) -> Result<Vec<bool>, AllocError>
    requires { AreIndices pts.now ids.now }
    ensures count { IfOk result (λ m. length m.items ≡ length pts.now) }
    ensures marks { IfOk result (λ m. (l : ℕ) → IsMarked m.items l → In l ids.now) }
{
    let mut marks = vec![in alloc; false; pts.len()]?;
    for id in ids {
        marks[id.index()] = true;
    }
    Ok(marks)
}

/// Returns a mark for each point, set if its index is a corner of one of some triangles.
fn marks_of_corners(
    alloc: Global,
    pts: &[Point],
    triangles: &[Triangle],
) -> Result<Vec<bool>, AllocError>
    requires { All (IsBelow (length pts.now)) triangles.now }
    ensures count { IfOk result (λ m. length m.items ≡ length pts.now) }
    ensures marks { IfOk result (λ m. (l : ℕ) → IsMarked m.items l → IsCornerOf triangles.now l) }
{
    let mut marks = vec![in alloc; false; pts.len()]?;
    for t in triangles {
        marks[t.i().index()] = true;
        marks[t.j().index()] = true;
        marks[t.k().index()] = true;
    }
    Ok(marks)
}

/// Returns true if the three corners of a triangle are marked.
fn are_marked(marks: &[bool], t: Triangle) -> bool
    requires { IsBelow (length marks.now) t }
    ensures { IsTrue result → IsMarked marks.now t.i × IsMarked marks.now t.j × IsMarked marks.now t.k }
{
    marks[t.i().index()] && marks[t.j().index()] && marks[t.k().index()]
}

/// Returns true if all corners of triangles are marked.
fn are_all_marked(marks: &[bool], triangles: &[Triangle]) -> bool
    requires { All (IsBelow (length marks.now)) triangles.now }
    ensures { IsTrue result → (l : ℕ) → IsCornerOf triangles.now l → IsMarked marks.now l }
{
    for t in triangles {
        if !are_marked(marks, *t) {
            return false;
        }
    }
    true
}

/// Returns those of some ids that are not marked.
fn unmarked(alloc: Global, marks: &[bool], ids: &[Id]) -> Result<Vec<Id>, AllocError>
    requires { All (λ i. i < length marks.now) ids.now }
    ensures { IfOk result (λ left. left.items ≡ filter (is_unmarked marks.now) ids.now) }
{
    let mut left = Vec::new(alloc);
    for id in ids {
        if !marks[id.index()] {
            left.push(*id)?;
        }
    }
    Ok(left)
}

/// Returns the ids that are not a corner of a triangle, or `None` if some corner is not one of the ids.
pub fn hidden_ids(
    alloc: Global,
    pts: &[Point],
    ids: &[Id],
    triangles: &[Triangle],
) -> Result<Option<Vec<Id>>, AllocError>
    requires ids { AreIndices pts.now ids.now }
    requires triangles { All (IsBelow (length pts.now)) triangles.now }
    ensures { IfOk result (λ r. IfSome r (λ hidden. AreHidden triangles.now ids.now hidden.items)) }
{
    let listed = marks_of_ids(alloc, pts, ids)?;
    if !are_all_marked(&listed, triangles) {
        return Ok(None);
    }
    let seen = marks_of_corners(alloc, pts, triangles)?;
    let hidden = unmarked(alloc, &seen, ids)?;
    Ok(Some(hidden))
}
