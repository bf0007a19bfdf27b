//! The hull of a list of points: of images where a map pays, without interior points where the filter pays, by workers.
ghost use Rattle.std.specs.Prelude.{◌≡◌, ◌<◌, ◌≤◌, IfOk, length};
ghost use Rattle.qh_model.specs.contract.{Cut.positions, IdSets.AreIndices, IdSets.IsIdSet};
ghost use Rattle.qh_model.specs.declared.limits.TheConstants.{POINT_LIMIT};
ghost use Rattle.qh_model.specs.headline.{DistinctIds.AreDistinctIds, Hull.IsBody, Hull.IsHull, Predicates.place, Sets.Members};

use qh_block::{block_size, cull_interior};
use qh_command::Settings;
use qh_lattice::reduced;
use qh_model::{Body, Cut, CutError, Hull, Id, Memory, Point};
use qh_run::{Gate, RunError, hull_of_body, run_body, run_hull};
use std::alloc::Global;
use std::thread::Threads;

/// Returns the cut of `count` positions into blocks of the wanted size, or of a greater one if there would be too many
/// blocks.
fn even_cut(alloc: Global, count: u32, wanted: u32) -> Result<Cut, Memory>
    requires some { 0 < count }
    requires few { count ≤ POINT_LIMIT }
    requires wanted { 0 < wanted }
    ensures { IfOk result (λ c. positions c ≡ count) }
{
    let size = block_size(count, wanted);
    match Cut::even(alloc, count, size) {
        Ok(cut) => Ok(cut),
        Err(CutError::Memory) => Err(Memory),
        Err(_) => unreachable!(),
    }
}

/// Returns the hull of a set of ids by the workers in the settings, observed by the gate.
fn body_by_workers<R: Threads + Sync, G: Gate>(
    rt: &R,
    alloc: Global,
    pts: &[Point],
    ids: &[Id],
    settings: &Settings,
    gate: &G,
) -> Result<Body, Memory>
    requires few { length ids.now ≤ POINT_LIMIT }
    requires some { 0 < length ids.now }
    requires indices { AreIndices pts.now ids.now }
    requires set { IsIdSet pts.now ids.now }
    ensures { IfOk result (IsBody (place pts.now) (Members ids.now)) }
{
    let cut = even_cut(alloc, ids.len() as u32, settings.block())?;
    match run_body(rt, alloc, pts, ids, &cut, settings.workers(), gate) {
        Ok(body) => Ok(body),
        Err(RunError::Memory) => Err(Memory),
        Err(RunError::BadWorkers) => unreachable!(),
    }
}

/// Returns the hull of a list of points by the workers in the settings, observed by the gate.
fn hull_by_workers<R: Threads + Sync, G: Gate>(
    rt: &R,
    alloc: Global,
    pts: &[Point],
    ids: &[Id],
    settings: &Settings,
    gate: &G,
) -> Result<Hull, Memory>
    requires few { length pts.now ≤ POINT_LIMIT }
    requires some { 0 < length ids.now }
    requires distinct { AreDistinctIds pts.now ids.now }
    ensures { IfOk result (λ h. IsHull pts.now h) }
{
    let cut = even_cut(alloc, ids.len() as u32, settings.block())?;
    match run_hull(rt, alloc, pts, ids, &cut, settings.workers(), gate) {
        Ok(hull) => Ok(hull),
        Err(RunError::Memory) => Err(Memory),
        Err(RunError::BadWorkers) => unreachable!(),
    }
}

/// Returns the hull of a list of points without a map. The interior points of a large list are removed first.
fn hull_as_given<R: Threads + Sync, G: Gate>(
    rt: &R,
    alloc: Global,
    pts: &[Point],
    ids: &[Id],
    settings: &Settings,
    gate: &G,
) -> Result<Hull, Memory>
    requires few { length pts.now ≤ POINT_LIMIT }
    requires some { 0 < length ids.now }
    requires distinct { AreDistinctIds pts.now ids.now }
    ensures { IfOk result (λ h. IsHull pts.now h) }
{
    match cull_interior(rt, alloc, pts, ids, settings.threads())? {
        Some(outer) => {
            let body = body_by_workers(rt, alloc, pts, &outer, settings, gate)?;
            Ok(hull_of_body(pts, ids, body))
        }
        None => hull_by_workers(rt, alloc, pts, ids, settings, gate),
    }
}

/// Returns the hull of a list of points, given its distinct ids; it is computed from images of the points where a map
/// pays.
pub(crate) fn hull_of<R: Threads + Sync, G: Gate>(
    rt: &R,
    alloc: Global,
    pts: &[Point],
    ids: &[Id],
    settings: &Settings,
    gate: &G,
) -> Result<Hull, Memory>
    requires few { length pts.now ≤ POINT_LIMIT }
    requires some { 0 < length ids.now }
    requires distinct { AreDistinctIds pts.now ids.now }
    ensures { IfOk result (λ h. IsHull pts.now h) }
{
    match reduced(alloc, pts, ids)? {
        Some(images) => hull_as_given(rt, alloc, &images, ids, settings, gate),
        None => hull_as_given(rt, alloc, pts, ids, settings, gate),
    }
}
