//! The contributions of the parts of a set, with the polygons that close the gap between them.
ghost use Rattle.std.specs.{Prelude.IfOk, Prelude.IfSome, Prelude.IsPermutation, Prelude.IsTrue, List.All};
ghost use Rattle.qh_parts_join.specs.contract.Parts.{IsPartOf};
ghost use Rattle.qh_parts.specs.steps.{Given.AreGivenOf, Kept.HaveKept};

use crate::given::{Contributions, given_in_threads};
use qh_block::hull;
use qh_bodies::UnsortedFaces;
use qh_model::{Id, Memory, Point, Polygon};
use qh_parts_guess::gap::{Border, bridge_over, indices_among};
use qh_parts_join::{Divided, Part, have_ids};
use qh_polygon::rising_ids;
use std::alloc::Global;
use std::thread::{Threads, join};

/// The faces that the parts of a set contribute, those that were removed from them, and the polygons that close the
/// gap.
#[derive(Drop)]
pub(crate) struct Joint {
    pub faces: UnsortedFaces,
    pub gone: Vec<Polygon>,
    pub bridges: Vec<Polygon>,
}

/// Returns true if the corners of the parts are verified to have the set's hull.
fn is_kept(alloc: Global, parts: &[Part], shared: &[Id], ids: &[Id]) -> Result<bool, Memory>
    ensures { IfOk result (λ yes. IsTrue yes → HaveKept parts.now shared.now ids.now) }
{
    let all = have_ids(alloc, ids, parts, shared)?;
    Ok(all)
}

/// Returns the polygons that close the gap between borders, from the hull of the ids of the seam. It is a guess.
fn bridges_between(
    alloc: Global,
    pts: &[Point],
    borders: &[Border],
    seam: &[Id],
) -> Result<Option<Vec<Polygon>>, Memory> {
    let ids = indices_among(alloc, pts, &rising_ids(alloc, seam)?)?;
    if ids.is_empty() {
        return Ok(Some(Vec::new(alloc)));
    }
    let body = hull(alloc, pts, &ids)?;
    Ok(bridge_over(alloc, body.polygons, borders)?)
}

/// Faces of parts, and the polygons that close the gap between them, as two threads return them.
type MergedAndBridges = (
    Result<UnsortedFaces, Memory>,
    Result<Option<Vec<Polygon>>, Memory>,
);

/// Returns faces, ordered as far as that saves time later, while a second thread finds the polygons that close the gap.
fn merged_beside_bridges<R: Threads>(
    rt: &R,
    alloc: Global,
    pts: &[Point],
    faces: UnsortedFaces,
    borders: &[Border],
    seam: &[Id],
) -> MergedAndBridges
    ensures { IfOk result.0 (IsPermutation faces) }
{
    join(
        rt,
        || -> Result<UnsortedFaces, Memory>
            ensures { IfOk result (IsPermutation faces) }
        { Ok(faces.merged()?) },
        || -> Result<Option<Vec<Polygon>>, Memory> { bridges_between(alloc, pts, borders, seam) },
    )
}

/// Returns the faces that the parts of a set contribute, with those between them; `None` if the attempt fails. One
/// thread computes the hull between the parts, while another merges the contributions, and a third checks that the parts
/// have the ids of the set.
pub(crate) fn joint_of<R: Threads>(
    rt: &R,
    alloc: Global,
    set: Divided,
    ids: &[Id],
) -> Result<Option<Joint>, Memory>
    requires { All (IsPartOf set.pts.now set.shared.now) set.parts.now }
    ensures given { IfOk result (λ found. IfSome found (λ j. AreGivenOf set.entry.pts.now set.entry.shared.now set.entry.parts.now
        j.faces j.gone.items)) }
    ensures kept { IfOk result (λ found. IfSome found (λ _. HaveKept set.entry.parts.now set.entry.shared.now ids.now)) }
{
    let Some(given) = given_in_threads(rt, alloc, set)? else {
        return Ok(None);
    };
    let Contributions {
        faces,
        gone,
        borders,
        seam,
    } = given;
    let (pts, parts, shared) = (set.pts, set.parts, set.shared);
    let (kept, (merged, bridges)) = join(
        rt,
        || -> Result<bool, Memory>
            ensures { IfOk result (λ yes. IsTrue yes → HaveKept parts.entry.now shared.entry.now ids.entry.now) }
        { is_kept(alloc, parts, shared, ids) },
        || -> MergedAndBridges
            ensures { IfOk result.0 (IsPermutation faces) }
        { merged_beside_bridges(rt, alloc, pts, faces, &borders, &seam) },
    );
    let (kept, faces) = (kept?, merged?);
    let Some(bridges) = bridges? else {
        return Ok(None);
    };
    if !kept {
        return Ok(None);
    }
    Ok(Some(Joint {
        faces,
        gone,
        bridges,
    }))
}
