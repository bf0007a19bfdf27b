//! Sieves make the cells of columns and remove the ids that columns hold. The calling thread does it alone, or several
//! threads do it in parallel.
ghost use Rattle.std.specs.Prelude.{◌≡◌, ◌*◌, ◌≤◌, ◌<◌, ℕ, List, IfOk, Result, Vec, take, drop, length, slice_index_or};
ghost use Rattle.std.specs.{List.All, Thread.IsSync};
ghost use Rattle.qh_pred.specs.contract.Planes.{PlaneValue};
ghost use Rattle.qh_block.specs.contract.{Cells.HoldsPoint, Cells.IsCellOf, KeptIds.KeepsExtremes};

use crate::regions::cells::Cell;
use crate::regions::columns::{Columns, Plan, cells_between, cells_of_quarters};
use crate::regions::grid::Square;
use crate::regions::id_set::IdSet;
use crate::regions::region::Region;
use qh_model::{Id, Memory};
use qh_pred::point_at;
use qh_threads::{PARTS_FOR_EACH, map_chunks, map_claimed};
use std::alloc::{AllocError, Global};
use std::thread::Threads;

/// The least number of ids that several threads process.
const SHARED_FROM: usize = 16_384;

/// The least number of columns whose cells several threads make.
const SHARED_COLUMNS: usize = 256;

/// A way to make the cells of columns and to process the ids of a set.
pub trait Sieve {
    /// Precondition of this sieve.
    ghost ready: { Self → Type 0 };

    /// Returns the cells of all columns, quarter by quarter.
    ///
    /// # Errors
    ///
    /// `Memory` if an allocation failed, or if there are more planes than numbers of 32 bits.
    fn cells(&self, alloc: Global, plan: Plan) -> Result<Vec<Cell>, Memory>
        requires { ready self.now }
        ensures { IfOk result (λ v. All (IsCellOf plan.entry.planes.now) v.items) };

    /// Returns the ids whose points the columns do not hold, in their order.
    ///
    /// # Errors
    ///
    /// `AllocError` if an allocation failed.
    fn outside(&self, alloc: Global, set: IdSet, columns: &Columns) -> Result<Vec<Id>, AllocError>
        requires { ready self.now }
        ensures { IfOk result (λ v. KeepsExtremes set.entry.pts.now (HoldsPoint columns.now) set.entry.ids.now v.items) };
}

/// Returns the ids whose points a region does not have, in their order. The calling thread does the work.
///
/// # Errors
///
/// `AllocError` if an allocation failed.
pub fn ids_outside<R: Region>(alloc: Global, set: IdSet, region: &R) -> Result<Vec<Id>, AllocError>
    ensures { IfOk result (λ v. KeepsExtremes set.entry.pts.now (R.held region.now) set.entry.ids.now v.items) }
{
    let mut kept = Vec::with_capacity(alloc, set.ids.len())?;
    for id in set.ids {
        if !region.has(point_at(set.pts, *id)) {
            kept.push(*id)?;
        }
    }
    Ok(kept)
}

/// Returns the part with a number of a set that is cut into parts of `size` ids. The last part may be shorter, and a
/// part past it is empty.
fn part_at(set: IdSet, size: usize, number: usize) -> IdSet
    ensures points { result.pts.now ≡ set.entry.pts.now }
    ensures ids { result.ids.now ≡ take size (drop (number * size) set.entry.ids.now) }
{
    let from = number.saturating_mul(size).min(set.ids.len());
    let (_, rest) = set.ids.split_at(from);
    let (part, _) = rest.split_at(size.min(rest.len()));
    IdSet {
        pts: set.pts,
        ids: part,
    }
}

/// Returns the ids kept of the parts of a set, one part after the other.
fn joined(
    alloc: Global,
    set: IdSet,
    columns: &Columns,
    parts: &[Result<Vec<Id>, AllocError>],
    size: usize,
) -> Result<Vec<Id>, AllocError>
    requires parts { (i : ℕ) (d : Result (Vec Id Global) AllocError) → i < length parts.now → IfOk (slice_index_or parts.now i d)
        (λ v. KeepsExtremes set.pts.now (HoldsPoint columns.now) (take size (drop (i * size) set.ids.now)) v.items) }
    requires all { length set.ids.now ≤ length parts.now * size }
    ensures { IfOk result (λ v. KeepsExtremes set.entry.pts.now (HoldsPoint columns.now) set.entry.ids.now v.items) }
{
    let mut kept = Vec::new(alloc);
    for part in parts {
        match part {
            Ok(ids) => kept.extend_from_slice(ids)?,
            Err(error) => return Err(*error),
        }
    }
    Ok(kept)
}

/// Returns the ids that the columns do not hold, in their order. A number of threads claim parts of the ids.
fn ids_outside_in_threads<R: Threads + Sync>(
    rt: &R,
    alloc: Global,
    set: IdSet,
    columns: &Columns,
    threads: usize,
) -> Result<Vec<Id>, AllocError>
    ensures { IfOk result (λ v. KeepsExtremes set.entry.pts.now (HoldsPoint columns.now) set.entry.ids.now v.items) }
{
    if threads < 2 || set.ids.len() < SHARED_FROM {
        return ids_outside(alloc, set, columns);
    }
    let count = threads.saturating_mul(PARTS_FOR_EACH);
    let size = set.ids.len() / count + 1;
    let parts = map_claimed(
        rt,
        alloc,
        threads,
        count,
        &move |number: usize| -> Result<Vec<Id>, AllocError>
            ensures { IfOk result (λ v. KeepsExtremes set.entry.pts.now (HoldsPoint columns.entry.now)
                (take size (drop (number * size) set.entry.ids.now)) v.items) }
        { ids_outside(alloc, part_at(set, size, number), columns) },
    )?;
    joined(alloc, set, columns, &parts, size)
}

/// Returns the cells in a list of parts, one part after the other.
fn joined_cells(alloc: Global, parts: Vec<Result<Vec<Cell>, Memory>>) -> Result<Vec<Cell>, Memory>
    ensures { IfOk result (λ v. (planes : List PlaneValue) → All (λ r. IfOk r (λ part. All (IsCellOf planes) part.items)) parts.items
        → All (IsCellOf planes) v.items) }
{
    let mut cells = Vec::new(alloc);
    for part in parts {
        let mut own = part?;
        cells.append(&mut own)?;
    }
    Ok(cells)
}

/// Returns the cells of all columns, quarter by quarter. Each of a number of threads makes those of some quarters.
fn cells_in_threads<R: Threads + Sync>(
    rt: &R,
    alloc: Global,
    plan: Plan,
    threads: usize,
) -> Result<Vec<Cell>, Memory>
    ensures { IfOk result (λ v. All (IsCellOf plan.entry.planes.now) v.items) }
{
    if threads < 2 || Square::whole(plan.side_bits).columns() < SHARED_COLUMNS {
        return cells_between(alloc, plan);
    }
    let quarters = [0, 1, 2, 3];
    let parts = map_chunks(
        rt,
        alloc,
        threads,
        &quarters,
        quarters.len().div_ceil(threads),
        &move |_start: usize, numbers: &[u32]| -> Result<Vec<Cell>, Memory>
            ensures { IfOk result (λ v. All (IsCellOf plan.entry.planes.now) v.items) }
        { cells_of_quarters(alloc, plan, numbers) },
    )?;
    joined_cells(alloc, parts)
}

/// The sieve that uses the calling thread alone.
#[derive(Clone, Copy, Debug)]
pub struct Alone;

impl Sieve for Alone {
    ghost ready = { λ _. Unit {0} };

    fn cells(&self, alloc: Global, plan: Plan) -> Result<Vec<Cell>, Memory> {
        cells_between(alloc, plan)
    }

    fn outside(&self, alloc: Global, set: IdSet, columns: &Columns) -> Result<Vec<Id>, AllocError> {
        ids_outside(alloc, set, columns)
    }
}

/// The sieve that uses several threads: a runtime and the greatest number of its threads.
#[derive(Clone, Copy, Debug)]
pub struct InThreads<'a, R> {
    /// The runtime that starts threads.
    pub rt: &'a R,
    /// The greatest number of threads that work at a time. If it is below two, the calling thread does all.
    pub threads: usize,
}

impl<R: Threads + Sync> Sieve for InThreads<'_, R> {
    ghost ready = { λ _. IsSync R.row };

    fn cells(&self, alloc: Global, plan: Plan) -> Result<Vec<Cell>, Memory> {
        cells_in_threads(self.rt, alloc, plan, self.threads)
    }

    fn outside(&self, alloc: Global, set: IdSet, columns: &Columns) -> Result<Vec<Id>, AllocError> {
        ids_outside_in_threads(self.rt, alloc, set, columns, self.threads)
    }
}
