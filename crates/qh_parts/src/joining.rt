//! The hull of a set from its parts: from their remaining faces and those between them, or from their corners.
ghost use Rattle.std.specs.Prelude.{◌<◌, ℕ, List, IfOk, IfSome, length};
ghost use Rattle.std.specs.List.{All};
ghost use Rattle.qh_model.specs.{contract.IdSets.AreIndices, contract.IdSets.IsIdSet, headline.Hull.IsBody};
ghost use Rattle.qh_model.specs.headline.{Predicates.place, Sets.Members};
ghost use Rattle.qh_parts_join.specs.contract.Parts.{IsPartOf};
ghost use Rattle.qh_parts.specs.steps.{Given.AreGivenOf, Kept.HaveKept};

use crate::hulls::Seams;
use crate::joint::{Joint, joint_of};
use crate::pieces::{Parted, are_indices};
use qh_block::hull;
use qh_model::{Body, Id, Memory, Point};
use qh_parts_guess::is_worth;
use qh_parts_join::join::{Kept, corners_of, join_faces};
use qh_parts_join::{Divided, kept_ids};
use std::alloc::Global;
use std::thread::Threads;

/// Returns the hull of kept ids, if there are any.
fn hull_of_kept(alloc: Global, pts: &[Point], kept: &[Id]) -> Result<Option<Body>, Memory>
    ensures { IfOk result (λ found. IfSome found (λ b. IsIdSet pts.now kept.now → IsBody (place pts.now) (Members kept.now) b)) }
{
    if kept.len() == 0 {
        return Ok(None);
    }
    if !are_indices(pts, kept) {
        return Ok(None);
    }
    let body = hull(alloc, pts, kept)?;
    Ok(Some(body))
}

/// Returns the hull of a set as that of the corners of its parts; `None` if they are not verified to have the set's
/// hull.
fn hull_of_corners(alloc: Global, set: Divided, ids: &[Id]) -> Result<Option<Body>, Memory>
    requires { All (IsPartOf set.pts.now set.shared.now) set.parts.now }
    ensures { IfOk result (λ found. IfSome found (λ b. IsIdSet set.entry.pts.now ids.now
        → IsBody (place set.entry.pts.now) (Members ids.now) b)) }
{
    let Some(kept) = kept_ids(alloc, ids, set.parts, set.shared)? else {
        return Ok(None);
    };
    hull_of_kept(alloc, set.pts, &kept)
}

/// Returns the hull of a set in parts from the faces that these contribute and those between them; `None` if the
/// attempt fails. Frees the meshes before building the face list.
fn hull_at_joint<R: Threads>(
    rt: &R,
    alloc: Global,
    pts: &[Point],
    parted: Parted,
    joint: Joint,
    workers: usize,
) -> Result<Option<Body>, Memory>
    requires parts { All (IsPartOf pts.now parted.shared.items) parted.parts.items }
    requires some { 0 < length parted.parts.items }
    requires shared { AreIndices pts.now parted.shared.items }
    requires given { AreGivenOf pts.now parted.shared.items parted.parts.items joint.faces joint.gone.items }
    ensures { IfOk result (λ found. IfSome found (λ b. (ids : List ℕ) → HaveKept parted.parts.items parted.shared.items ids
        → IsIdSet pts.now ids → IsBody (place pts.now) (Members ids) b)) }
{
    let Parted { shared, parts } = parted;
    let Joint {
        faces,
        gone,
        bridges,
    } = joint;
    let corners = corners_of(alloc, parts)?;
    let kept = Kept {
        pts,
        corners: &corners,
        shared: &shared,
    };
    join_faces(rt, alloc, kept, faces, &gone, &bridges, workers)
}

/// Returns true if parts should be joined at their seams.
fn has_seams(set: Divided, seams: Seams) -> bool {
    match seams {
        Seams::WhereTheyPay => is_worth(set),
        Seams::Always => true,
    }
}

/// Returns the hull of a set from its parts: from their corners if the parts are not joined at their seams, else from
/// the faces that they contribute and those between them; `None` if the attempt fails.
pub(crate) fn hull_of_parts<R: Threads>(
    rt: &R,
    alloc: Global,
    pts: &[Point],
    parted: Parted,
    ids: &[Id],
    workers: usize,
    seams: Seams,
) -> Result<Option<Body>, Memory>
    requires parts { All (IsPartOf pts.now parted.shared.items) parted.parts.items }
    requires some { 0 < length parted.parts.items }
    requires shared { AreIndices pts.now parted.shared.items }
    ensures { IfOk result (λ found. IfSome found (λ b. IsIdSet pts.now ids.now → IsBody (place pts.now) (Members ids.now) b)) }
{
    let set = Divided {
        pts,
        parts: &parted.parts,
        shared: &parted.shared,
    };
    if !has_seams(set, seams) {
        return hull_of_corners(alloc, set, ids);
    }
    let Some(joint) = joint_of(rt, alloc, set, ids)? else {
        return Ok(None);
    };
    hull_at_joint(rt, alloc, pts, parted, joint, workers)
}
