//! The extreme ids and the hull of a set, in every dimension.
ghost use Rattle.std.specs.Prelude.{◌<◌, IfOk, length};
ghost use Rattle.qh_model.specs.contract.IdSets.{IsIdSet, AreIndices};
ghost use Rattle.qh_model.specs.headline.{Hull.AreExtremes, Hull.IsBody, Predicates.place, Sets.Members};
ghost use Rattle.qh_block.specs.steps.IdSets.{AreExtremesOf, IsHullOf};

use crate::blocking::{TELLING, are_few};
use crate::bodies::{flat_body, polygon_of};
use crate::flat_sets::{polygon_hull, segment_hull};
use crate::gathered::{ids_at, positions_below};
use crate::interior::cull_alone;
use crate::regions::IdSet;
use crate::solids::{solid_body, solid_extremes, solid_mesh};
use qh_model::{Body, Id, Memory, Point};
use qh_polygon::{Shape, rank};
use qh_surface::starts::{Simplex, points_of};
use std::alloc::Global;

/// Returns the extreme ids of a set, rising, by a run over all of its ids without gathering the points.
fn extremes_in_place(alloc: Global, set: IdSet) -> Result<Vec<Id>, Memory>
    requires some { 0 < length set.ids.now }
    ensures { IfOk result (λ v. AreExtremesOf set.entry v.items) }
{
    if let Shape::Solid(i, j, k, l) = rank(set.pts, set.ids) {
        let surface = solid_mesh(alloc, set, Simplex { i, j, k, l })?;
        return solid_extremes(alloc, set.pts, &surface);
    }
    let body = hull_of_all(alloc, set)?;
    Ok(body.extremes)
}

/// Returns the extreme ids of a set, rising, by a run over all of its points, gathered.
fn extremes_of_all(alloc: Global, set: IdSet) -> Result<Vec<Id>, Memory>
    requires some { 0 < length set.ids.now }
    ensures { IfOk result (λ v. AreExtremesOf set.entry v.items) }
{
    let points = points_of(alloc, set.pts, set.ids)?;
    let positions = positions_below(alloc, set.ids.len())?;
    let gathered = IdSet {
        pts: &points,
        ids: &positions,
    };
    let found = extremes_in_place(alloc, gathered)?;
    Ok(ids_at(alloc, set.ids, &found)?)
}

/// Returns the hull of a set, by a run over all of its ids.
fn hull_of_all(alloc: Global, set: IdSet) -> Result<Body, Memory>
    requires some { 0 < length set.ids.now }
    ensures { IfOk result (IsHullOf set.entry) }
{
    match rank(set.pts, set.ids) {
        Shape::Point(i) => flat_body(alloc, 0, polygon_of(alloc, &[i])?, 0),
        Shape::Segment(i, j) => segment_hull(alloc, set, i, j),
        Shape::Flat(i, j, k) => polygon_hull(alloc, set, i, j, k),
        Shape::Solid(i, j, k, l) => {
            let surface = solid_mesh(alloc, set, Simplex { i, j, k, l })?;
            solid_body(alloc, set.pts, &surface)
        }
    }
}

/// Returns the extreme ids of a set, as [`extremes`] does, by a run over all of its ids. It is meant for a set that was
/// culled by [`cull_interior`](crate::interior::cull_interior) before, or for a part of a culled set.
///
/// # Errors
///
/// `Memory` if an allocation failed.
pub fn extremes_unculled(alloc: Global, pts: &[Point], ids: &[Id]) -> Result<Vec<Id>, Memory>
    requires some { 0 < length ids.now }
    requires indices { AreIndices pts.now ids.now }
    ensures { IfOk result (λ v. IsIdSet pts.now ids.now → AreExtremes (place pts.now) (Members ids.now) v.items) }
{
    extremes_of_all(alloc, IdSet { pts, ids })
}

/// Returns the extreme ids of a set, rising.
///
/// `ids` has at least one id, each the index of one of the points. Nothing is promised for ids that do not rise or that
/// have a point in common (`IsIdSet`).
///
/// # Errors
///
/// `Memory` if an allocation failed.
///
/// Source: Barber, Dobkin and Huhdanpaa 1996, for a set of dimension 3.
pub fn extremes(alloc: Global, pts: &[Point], ids: &[Id]) -> Result<Vec<Id>, Memory>
    requires some { 0 < length ids.now }
    requires indices { AreIndices pts.now ids.now }
    ensures { IfOk result (λ v. IsIdSet pts.now ids.now → AreExtremes (place pts.now) (Members ids.now) v.items) }
{
    let set = IdSet { pts, ids };
    match cull_alone(alloc, set)? {
        Some(outer) => extremes_of_all(alloc, IdSet { pts, ids: &outer }),
        None => extremes_of_all(alloc, set),
    }
}

/// Returns true if a set has more than `TELLING` ids, and at most half of the first `TELLING` are extreme among these.
/// Then most ids of the set are likely to be inside.
///
/// # Errors
///
/// `Memory` if an allocation failed.
pub fn few_are_extreme(alloc: Global, pts: &[Point], ids: &[Id]) -> Result<bool, Memory>
    requires { AreIndices pts.now ids.now }
{
    if ids.len() <= TELLING {
        return Ok(false);
    }
    let (sample, _) = ids.split_at(TELLING);
    let found = extremes(alloc, pts, sample)?;
    Ok(are_few(found.len(), TELLING))
}

/// Returns the hull of a set: its dimension, its extreme ids, its faces and the number of its edges.
///
/// `ids` has at least one id, each the index of one of the points. Nothing is promised for ids that do not rise or that
/// have a point in common (`IsIdSet`).
///
/// A set of dimension 3 has the polygon of each plane through three of its points with no point outside,
/// counterclockwise seen from outside. For sets in a point, a line or a plane see
/// `qh_model/specs/headline/Polygons.antt`.
///
/// # Errors
///
/// `Memory` if an allocation failed.
///
/// Source: Barber, Dobkin and Huhdanpaa 1996, for a set of dimension 3.
pub fn hull(alloc: Global, pts: &[Point], ids: &[Id]) -> Result<Body, Memory>
    requires some { 0 < length ids.now }
    requires indices { AreIndices pts.now ids.now }
    ensures { IfOk result (λ b. IsIdSet pts.now ids.now → IsBody (place pts.now) (Members ids.now) b) }
{
    let set = IdSet { pts, ids };
    match cull_alone(alloc, set)? {
        Some(outer) => hull_of_all(alloc, IdSet { pts, ids: &outer }),
        None => hull_of_all(alloc, set),
    }
}
