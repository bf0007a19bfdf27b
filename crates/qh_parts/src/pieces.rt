//! The parts of a set, each made by its own thread.
ghost use Rattle.std.specs.Prelude.{All, ◌<◌, IfOk, IfSome, IsTrue, length};
ghost use Rattle.qh_model.specs.contract.IdSets.{AreIndices};
ghost use Rattle.qh_parts_join.specs.contract.Parts.{IsPartOf};

use qh_model::{Id, Memory, Point};
use qh_parts_guess::curve::{along_curve, shared_ids};
use qh_parts_join::Part;
use qh_threads::map_indices;
use std::alloc::Global;
use std::thread::Threads;

/// A list of ids that is cut into pieces of one size, the last perhaps shorter, with ids that belong to every piece.
#[derive(Clone, Copy, Drop)]
pub(crate) struct CurvePieces<'a> {
    pub pts: &'a [Point],
    pub listed: &'a [Id],
    pub shared: &'a [Id],
    pub size: usize,
    ghost listed_in: { AreIndices pts.now listed.now },
    ghost shared_in: { AreIndices pts.now shared.now },
}

/// Returns true if all ids are indices of points.
pub(crate) fn are_indices(pts: &[Point], ids: &[Id]) -> bool
    ensures { IsTrue result → AreIndices pts.now ids.now }
{
    for id in ids {
        if id.index() >= pts.len() {
            return false;
        }
    }
    true
}

impl CurvePieces<'_> {
    /// Returns the part of the piece with this number, if its points do not lie in one plane.
    fn part(self, alloc: Global, number: usize) -> Result<Option<Part>, Memory>
        ensures { IfOk result (λ found. IfSome found (IsPartOf self.entry.pts.now self.entry.shared.now)) }
    {
        let from = number.saturating_mul(self.size).min(self.listed.len());
        let (_, rest) = self.listed.split_at(from);
        let (own, _) = rest.split_at(self.size.min(rest.len()));
        let mut ids = Vec::from_slice(alloc, own)?;
        ids.extend_from_slice(self.shared)?;
        Part::of(alloc, self.pts, &ids, self.shared)
    }
}

/// Returns the parts in results; `None` if a result has no part.
fn all_parts(
    alloc: Global,
    pieces: CurvePieces,
    mut made: Vec<Result<Option<Part>, Memory>>,
) -> Result<Option<Vec<Part>>, Memory>
    requires { All (λ r. IfOk r (λ found. IfSome found (IsPartOf pieces.pts.now pieces.shared.now))) made.items }
    ensures { IfOk result (λ found. IfSome found (λ v. All (IsPartOf pieces.entry.pts.now pieces.entry.shared.now) v.items)) }
{
    let mut parts = Vec::new(alloc);
    while let Some(answer) = made.pop() {
        let found = answer?;
        let Some(part) = found else {
            return Ok(None);
        };
        parts.push(part)?;
    }
    Ok(Some(parts))
}

/// Returns the parts of the first `count` pieces, with a thread for each; `None` if the points of one lie in one plane.
pub(crate) fn parts_in_threads<R: Threads>(
    rt: &R,
    alloc: Global,
    pieces: CurvePieces,
    count: usize,
) -> Result<Option<Vec<Part>>, Memory>
    ensures { IfOk result (λ found. IfSome found (λ v. All (IsPartOf pieces.entry.pts.now pieces.entry.shared.now) v.items)) }
{
    let made = map_indices(
        rt,
        alloc,
        count,
        &move |number: usize| -> Result<Option<Part>, Memory>
            ensures { IfOk result (λ found. IfSome found (IsPartOf pieces.entry.pts.now pieces.entry.shared.now)) }
        { pieces.part(alloc, number) },
    )?;
    all_parts(alloc, pieces, made)
}

/// A set in parts, at least one, and the ids that belong to each of them.
#[derive(Drop)]
pub(crate) struct Parted {
    pub shared: Vec<Id>,
    pub parts: Vec<Part>,
}

/// Returns a set in `count` parts, of ids ordered along a curve, each part made by a thread; 0 counts as 1. Returns
/// `None` if the points of a part lie in one plane.
pub(crate) fn parts_along_curve<R: Threads>(
    rt: &R,
    alloc: Global,
    pts: &[Point],
    ids: &[Id],
    count: usize,
    workers: u32,
) -> Result<Option<Parted>, Memory>
    requires { AreIndices pts.now ids.now }
    ensures parts { IfOk result (λ found. IfSome found (λ p. All (IsPartOf pts.now p.shared.items) p.parts.items)) }
    ensures some { IfOk result (λ found. IfSome found (λ p. 0 < length p.parts.items)) }
    ensures shared { IfOk result (λ found. IfSome found (λ p. AreIndices pts.now p.shared.items)) }
{
    let Some(shared) = shared_ids(alloc, pts, ids)? else {
        return Ok(None);
    };
    if !are_indices(pts, &shared) {
        return Ok(None);
    }
    // The ends of the set are among the shared ids.
    let listed = along_curve(rt, alloc, pts, ids, &shared, workers)?;
    if !are_indices(pts, &listed) {
        return Ok(None);
    }
    let count = count.max(1);
    let pieces = CurvePieces {
        pts,
        listed: &listed,
        shared: &shared,
        size: listed.len() / count + 1,
    };
    let Some(parts) = parts_in_threads(rt, alloc, pieces, count)? else {
        return Ok(None);
    };
    if parts.len() == 0 {
        return Ok(None);
    }
    Ok(Some(Parted { shared, parts }))
}
