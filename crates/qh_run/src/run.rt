//! The hull of a list of points, by workers.
ghost use Rattle.std.specs.Prelude.{◌≡◌, ◌↔◌, ◌<◌, ◌≤◌, IfOk, IsErrOf, length};
ghost use Rattle.qh_model.specs.contract.{Cut.positions, IdSets.AreIndices, IdSets.IsIdSet};
ghost use Rattle.qh_model.specs.declared.limits.TheConstants.{POINT_LIMIT, WORKER_LIMIT};
ghost use Rattle.qh_model.specs.headline.{DistinctIds.AreDistinctIds, Hull.IsBody, Hull.IsHull, Predicates.place};
ghost use Rattle.qh_model.specs.headline.Sets.{Members};
ghost use Rattle.qh_run.specs.declared.run.RunError.TheVariants as errors;

use crate::blocks::Blocks;
use crate::gate::Gate;
use crate::hulls::hull_of_body;
use crate::root::root_ids;
use qh_model::{Body, Cut, Hull, Id, Memory, Point, WORKER_LIMIT};
use std::alloc::Global;
use std::thread::Threads;

/// Why there is no hull.
#[derive(Clone, Copy, Debug, PartialEq, Eq, Drop)]
pub enum RunError {
    /// 1: the number of workers is not from 1 to `WORKER_LIMIT`.
    BadWorkers,
    /// 2: an allocation failed.
    Memory,
}

impl From<Memory> for RunError {
    ghost from_gives = { λ _ e. e ≡ errors.Memory };

    fn from(_memory: Memory) -> RunError {
        RunError::Memory
    }
}

/// Returns the hull of a set of ids. A pass gives up where the tree does not pay.
///
/// `ids` are indices of points, rising, with distinct points (`IsIdSet`), and `cut` is a cut of their positions, whose
/// number is that of the ids. The caller ensures these conditions.
///
/// The workers share the blocks, at most one worker for each block, and the gate is notified of each block. Then the
/// calling thread calls the gate's `finish` once: with the extreme ids of all blocks, or with all ids if a worker gave
/// up or if an allocation for the board or a thread failed. The result does not depend on the cut, nor on the number of
/// workers or the order of their steps.
///
/// # Errors
///
/// `BadWorkers` for a number of workers that is not from 1 to `WORKER_LIMIT`, before all other errors; `Memory` exactly
/// if the gate's `finish` returns it. Any other allocation that fails only costs the help of the workers.
pub fn run_body<R: Threads + Sync, G: Gate>(
    rt: &R,
    alloc: Global,
    pts: &[Point],
    ids: &[Id],
    cut: &Cut,
    workers: u32,
    gate: &G,
) -> Result<Body, RunError>
    requires some { 0 < length ids.now }
    requires indices { AreIndices pts.now ids.now }
    requires set { IsIdSet pts.now ids.now }
    requires cut { positions cut.now ≡ length ids.now }
    ensures body { IfOk result (λ b. IsBody (place pts.now) (Members ids.now) b) }
    ensures workers { IsErrOf result RunError.BadWorkers ↔ ¬ ((1 ≤ workers) × (workers ≤ WORKER_LIMIT)) }
{
    if workers < 1 || workers > WORKER_LIMIT {
        return Err(RunError::BadWorkers);
    }
    // The found ids have the same hull.
    match root_ids(rt, alloc, Blocks::new(pts, ids, cut), workers, gate) {
        Some(part) => Ok(gate.finish(alloc, pts, &part)?),
        None => Ok(gate.finish(alloc, pts, ids)?),
    }
}

/// Returns the hull of a list of points, that of its distinct ids as [`run_body`] takes it.
///
/// `ids` are its distinct ids, rising, as `qh_plane::distinct` returns them, and `cut` is a cut of their positions,
/// whose number is that of the ids. The list has at most `POINT_LIMIT` points. The caller ensures these conditions.
///
/// # Errors
///
/// `BadWorkers` for a number of workers that is not from 1 to `WORKER_LIMIT`, before all other errors; `Memory` exactly
/// if the gate's `finish` returns it.
pub fn run_hull<R: Threads + Sync, G: Gate>(
    rt: &R,
    alloc: Global,
    pts: &[Point],
    ids: &[Id],
    cut: &Cut,
    workers: u32,
    gate: &G,
) -> Result<Hull, RunError>
    requires few { length pts.now ≤ POINT_LIMIT }
    requires some { 0 < length ids.now }
    requires distinct { AreDistinctIds pts.now ids.now }
    requires cut { positions cut.now ≡ length ids.now }
    ensures hull { IfOk result (λ h. IsHull pts.now h) }
    ensures workers { IsErrOf result RunError.BadWorkers ↔ ¬ ((1 ≤ workers) × (workers ≤ WORKER_LIMIT)) }
{
    let body = run_body(rt, alloc, pts, ids, cut, workers, gate)?;
    Ok(hull_of_body(pts, ids, body))
}
