//! The hull of a set by several threads.
ghost use Rattle.std.specs.Prelude.{◌<◌, IfOk, IfSome, length};
ghost use Rattle.qh_model.specs.{contract.IdSets.AreIndices, contract.IdSets.IsIdSet, headline.Hull.IsBody};
ghost use Rattle.qh_model.specs.headline.{Predicates.place, Sets.Members};

use crate::joining::hull_of_parts;
use crate::pieces::parts_along_curve;
use qh_block::{few_are_extreme, hull};
use qh_model::{Body, Id, Memory, Point};
use qh_parts_guess::gap::{is_worth_parting, trial_sample};
use std::alloc::Global;
use std::thread::Threads;

/// The hull of a set with fewer ids is computed by one thread. Parts of fewer take more than twice its CPU time.
const LARGE: usize = 65_536;

/// The greatest number of parts. More parts have longer seams, and are no faster.
const PARTS: usize = 8;

/// The least number of workers for parts. With fewer, one worker alone is as fast, since parts take twice the work.
const LEAST_WORKERS: u32 = 3;

/// When parts are joined at their seams. Otherwise the hull of their corners is computed.
#[derive(Clone, Copy, Debug, Drop)]
pub enum Seams {
    /// If it is likely to pay: the parts have many corners, and most facets stay.
    WhereTheyPay,
    /// Always, for trials.
    Always,
}

/// How a set is divided into parts.
#[derive(Clone, Copy, Debug, Drop)]
pub struct Parting {
    /// The number of parts. 0 counts as 1.
    pub parts: usize,
    pub seams: Seams,
}

/// Returns true if dividing a set into `count` parts is likely to pay.
fn parts_pay(alloc: Global, pts: &[Point], ids: &[Id], count: usize) -> Result<bool, Memory>
    requires some { 0 < length ids.now }
    requires indices { AreIndices pts.now ids.now }
{
    let sampled = trial_sample(alloc, pts, ids)?;
    if sampled.is_empty() {
        return Ok(true);
    }
    let body = hull(alloc, pts, &sampled)?;
    is_worth_parting(alloc, pts, sampled, &body, count)
}

/// Returns the hull of a set by parts of it, however small it is. Returns `None` if the attempt fails: a part lies in a
/// plane, or a guess of what stays of the parts, or of what closes the gap between them, is not verified. The contract
/// allows `None` in every case.
///
/// `ids` are indices of points. Nothing is promised for ids that do not rise or that have a point in common (`IsIdSet`).
///
/// # Errors
///
/// `Memory` if an allocation failed.
pub fn hull_by_parts<R: Threads>(
    rt: &R,
    alloc: Global,
    pts: &[Point],
    ids: &[Id],
    workers: u32,
    parting: Parting,
) -> Result<Option<Body>, Memory>
    requires { AreIndices pts.now ids.now }
    ensures { IfOk result (λ found. IfSome found (λ b. IsIdSet pts.now ids.now → IsBody (place pts.now) (Members ids.now) b)) }
{
    let Some(parted) = parts_along_curve(rt, alloc, pts, ids, parting.parts, workers)? else {
        return Ok(None);
    };
    let workers = workers as usize;
    hull_of_parts(rt, alloc, pts, parted, ids, workers, parting.seams)
}

/// Returns the hull of a set, as [`hull`](qh_block::hull) does, with at most `workers` threads. If there are at least
/// three workers, a large set is divided into parts, which are joined, provided that most of its first ids are extreme
/// among these, and that a sample shows that parts are likely to pay.
///
/// `ids` has at least one id, each the index of one of the points. Nothing is promised for ids that do not rise or that
/// have a point in common (`IsIdSet`).
///
/// # Errors
///
/// `Memory` if an allocation failed.
pub fn hull_in_parts<R: Threads>(
    rt: &R,
    alloc: Global,
    pts: &[Point],
    ids: &[Id],
    workers: u32,
) -> Result<Body, Memory>
    requires some { 0 < length ids.now }
    requires indices { AreIndices pts.now ids.now }
    ensures { IfOk result (λ b. IsIdSet pts.now ids.now → IsBody (place pts.now) (Members ids.now) b) }
{
    if workers < LEAST_WORKERS || ids.len() < LARGE || few_are_extreme(alloc, pts, ids)? {
        return hull(alloc, pts, ids);
    }
    let parting = Parting {
        parts: PARTS.min(workers as usize),
        seams: Seams::WhereTheyPay,
    };
    if !parts_pay(alloc, pts, ids, parting.parts)? {
        return hull(alloc, pts, ids);
    }
    match hull_by_parts(rt, alloc, pts, ids, workers, parting)? {
        Some(body) => Ok(body),
        None => hull(alloc, pts, ids),
    }
}
