//! The corner box and the rounds of the filter, in order.
ghost use Rattle.std.specs.Prelude.{◌<◌, ℕ, IfOk, IfSome, length};
ghost use Rattle.std.specs.List.Sorted.{IsStrictlyIncreasing};
ghost use Rattle.qh_model.specs.{contract.IdSets.AreIndices, headline.Extreme.Extreme, headline.Predicates.place};
ghost use Rattle.qh_model.specs.headline.Sets.{In, Members};
ghost use Rattle.qh_block.specs.steps.InnerPoints.{IsOuterPart};

use crate::interior::rules::{BOX_FROM, PROBES, Round, SECOND_ROUND, filter_pays, round_of_all};
use crate::interior::sample::{inner_columns, one_of};
use crate::regions::{Alone, CornerBox, IdSet, InThreads, Region, Sieve, ids_outside};
use qh_model::{Id, Memory, Point};
use qh_pred::point_at;
use std::alloc::Global;
use std::thread::Threads;

/// Returns true if at least half of about [`PROBES`] ids, spread over a set, lie in a region, so that it pays to test
/// all ids.
fn has_most<R: Region>(region: &R, set: IdSet) -> bool {
    let step = (set.ids.len() / PROBES).max(1);
    let mut held: usize = 0;
    let mut count: usize = 0;
    for part in set.ids.chunks(step) {
        count = count.saturating_add(1);
        if region.has(point_at(set.pts, part[0])) {
            held = held.saturating_add(1);
        }
    }
    filter_pays(held, count)
}

/// Returns the ids of a large set without those that a round finds inside; `None` if the round does not pay.
fn ids_after_round<S: Sieve>(
    sieve: &S,
    alloc: Global,
    set: IdSet,
    round: &Round,
) -> Result<Option<Vec<Id>>, Memory>
    requires some { 0 < length set.ids.now }
    requires ready { S.ready sieve.now }
    ensures some { IfOk result (λ found. IfSome found (λ v. 0 < length v.items)) }
    ensures part { IfOk result (λ found. IfSome found (λ v. IsOuterPart set.entry.pts.now set.entry.ids.now v.items)) }
{
    let IdSet { pts, ids } = set;
    if ids.len() < round.from {
        return Ok(None);
    }
    let sample = one_of(alloc, ids, round.stride(ids.len()))?;
    let sampled = IdSet { pts, ids: &sample };
    let Some(columns) = inner_columns(sieve, alloc, sampled, round.side_bits)? else {
        return Ok(None);
    };
    if !has_most(&columns, sampled) {
        return Ok(None);
    }
    let outer = sieve.outside(alloc, set, &columns)?;
    if outer.is_empty() {
        return Ok(None);
    }
    Ok(Some(outer))
}

/// Returns the ids of a set without those that are found inside, in two rounds for a large set and in one for a smaller
/// set. Returns `None` if the first round does not pay.
pub fn cull_ids<S: Sieve>(sieve: &S, alloc: Global, set: IdSet) -> Result<Option<Vec<Id>>, Memory>
    requires some { 0 < length set.ids.now }
    requires ready { S.ready sieve.now }
    ensures some { IfOk result (λ found. IfSome found (λ v. 0 < length v.items)) }
    ensures part { IfOk result (λ found. IfSome found (λ v. IsOuterPart set.entry.pts.now set.entry.ids.now v.items)) }
{
    let round = round_of_all(set.ids.len());
    let Some(first) = ids_after_round(sieve, alloc, set, &round)? else {
        return Ok(None);
    };
    let left = IdSet {
        pts: set.pts,
        ids: &first,
    };
    match ids_after_round(sieve, alloc, left, &SECOND_ROUND)? {
        Some(second) => Ok(Some(second)),
        None => Ok(Some(first)),
    }
}

/// Returns the ids of a set without those that lie in its corner box; `None` if the set is small, or if few ids of a
/// sample lie in the box.
fn ids_outside_box(alloc: Global, set: IdSet) -> Result<Option<Vec<Id>>, Memory>
    requires { 0 < length set.ids.now }
    ensures some { IfOk result (λ found. IfSome found (λ v. 0 < length v.items)) }
    ensures part { IfOk result (λ found. IfSome found (λ v. IsOuterPart set.entry.pts.now set.entry.ids.now v.items)) }
{
    if set.ids.len() < BOX_FROM {
        return Ok(None);
    }
    let corner_box = CornerBox::of(set);
    if !has_most(&corner_box, set) {
        return Ok(None);
    }
    let outer = ids_outside(alloc, set, &corner_box)?;
    if outer.is_empty() {
        return Ok(None);
    }
    Ok(Some(outer))
}

/// Returns the ids that [`cull_ids`] keeps of a part of a set, or the whole part if the filter does not pay. The part
/// has all extreme ids of the set.
fn cull_part(alloc: Global, set: IdSet, part: Vec<Id>) -> Result<Vec<Id>, Memory>
    requires some { 0 < length part.items }
    requires part { IsOuterPart set.pts.now set.ids.now part.items }
    ensures some { IfOk result (λ v. 0 < length v.items) }
    ensures part { IfOk result (λ v. IsOuterPart set.entry.pts.now set.entry.ids.now v.items) }
{
    let left = IdSet {
        pts: set.pts,
        ids: &part,
    };
    match cull_ids(&Alone, alloc, left)? {
        Some(fewer) => Ok(fewer),
        None => Ok(part),
    }
}

/// Returns the ids of a set without those that the calling thread finds not to be extreme: those in its corner box, and
/// of a large set those strictly inside the hull of a sample. Returns `None` if no filter pays; the contract allows it
/// in every case.
///
/// The set has at least one id. The returned ids include all extreme ids, so their hull is that of the set. They rise
/// if the ids of the set do.
///
/// # Errors
///
/// `Memory` if an allocation failed.
pub fn cull_alone(alloc: Global, set: IdSet) -> Result<Option<Vec<Id>>, Memory>
    requires { 0 < length set.ids.now }
    ensures some { IfOk result (λ found. IfSome found (λ v. 0 < length v.items)) }
    ensures rising { let ids = set.entry.ids.now in
        IfOk result (λ found. IfSome found (λ v. IsStrictlyIncreasing ids → IsStrictlyIncreasing v.items)) }
    ensures within { IfOk result (λ found. IfSome found (λ v. (i : ℕ) → In i v.items → In i set.entry.ids.now)) }
    ensures extremes { let pts = set.entry.pts.now in let ids = set.entry.ids.now in
        IfOk result (λ found. IfSome found (λ v. (i : ℕ) → Extreme (place pts) (Members ids) i → In i v.items)) }
{
    let Some(first) = ids_outside_box(alloc, set)? else {
        return cull_ids(&Alone, alloc, set);
    };
    Ok(Some(cull_part(alloc, set, first)?))
}

/// Returns the ids of a large set without those that the interior filter finds strictly inside, by at most `threads`
/// threads. Returns `None` if no filter pays: the set is small, or the sample shows that few ids are inside. The
/// contract allows `None` in every case.
///
/// `ids` has at least one id, each the index of one of the points. The returned ids include all extreme ids, so their
/// hull is that of the set. They rise if `ids` does.
///
/// # Errors
///
/// `Memory` if an allocation failed.
pub fn cull_interior<R: Threads + Sync>(
    rt: &R,
    alloc: Global,
    pts: &[Point],
    ids: &[Id],
    threads: u32,
) -> Result<Option<Vec<Id>>, Memory>
    requires some { 0 < length ids.now }
    requires indices { AreIndices pts.now ids.now }
    ensures some { IfOk result (λ found. IfSome found (λ v. 0 < length v.items)) }
    ensures rising { IfOk result (λ found. IfSome found (λ v. IsStrictlyIncreasing ids.now → IsStrictlyIncreasing v.items)) }
    ensures within { IfOk result (λ found. IfSome found (λ v. (i : ℕ) → In i v.items → In i ids.now)) }
    ensures extremes { IfOk result (λ found. IfSome found (λ v. (i : ℕ) → Extreme (place pts.now) (Members ids.now) i → In i v.items)) }
{
    let sieve = InThreads {
        rt,
        threads: threads as usize,
    };
    cull_ids(&sieve, alloc, IdSet { pts, ids })
}
