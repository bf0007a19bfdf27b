//! Sets mapped so that they extend about equally in all directions.
ghost use Rattle.std.specs.Prelude.{◌<◌, ◌≤◌, IfOk, IfSome, IsTrue, length};
ghost use Rattle.qh_model.specs.contract.IdSets.{AreIndices, IsIdSet};
ghost use Rattle.qh_model.specs.{declared.limits.TheConstants.COORDINATE_LIMIT, headline.Dimension.IsDimension};
ghost use Rattle.qh_model.specs.headline.{Predicates.place, Sets.Members};
ghost use Rattle.qh_lattice.specs.contract.LatticeMaps.{IsMapped, IsReduced};

use crate::basis::reduced_rows;
use crate::form::{Rows, covariances, is_round};
use crate::lattice_map::LatticeMap;
use crate::row::{CENTRE_LIMIT, Row, reach};
use qh_model::{COORDINATE_LIMIT, Id, Memory, Point};
use qh_polygon::{Shape, rank};
use qh_pred::point_at;
use std::alloc::{AllocError, Global};

/// The least number of ids for which a map pays.
const MANY: usize = 4096;

/// The number of points of a sample.
const SAMPLE: usize = 1024;

/// The distance between the ids of a sample: a prime, so that a sample of a grid is not one row of it.
const STRIDE: u64 = 2654435761;

/// The number of times that rows are reduced, each time by the covariances along the rows found before.
const ROUNDS: usize = 4;

/// Returns the points of a sample of ids that is spread evenly over all.
fn sample_of(alloc: Global, pts: &[Point], ids: &[Id]) -> Result<Vec<Point>, AllocError>
    requires some { 0 < length ids.now }
    requires indices { AreIndices pts.now ids.now }
{
    let mut sample = Vec::with_capacity(alloc, SAMPLE)?;
    for number in 0..SAMPLE as u64 {
        let position = (number * STRIDE) % ids.len() as u64;
        sample.push(point_at(pts, ids[position as usize]))?;
    }
    Ok(sample)
}

/// Returns rows of determinant 1 along which a sample is short, or `None` if it is round already.
fn short_rows(sample: &[Point]) -> Option<Rows> {
    let mut rows = Rows::identity();
    if is_round(&covariances(sample, &rows)) {
        return None;
    }
    for _ in 0..ROUNDS {
        rows = reduced_rows(sample, &rows)?;
    }
    Some(rows)
}

/// Returns the greatest factor by which a coordinate can be multiplied.
fn scale_over(half: u32) -> u32
    requires some { 0 < half }
    requires small { half ≤ COORDINATE_LIMIT }
    ensures some { 0 < result }
    ensures small { result ≤ COORDINATE_LIMIT }
{
    COORDINATE_LIMIT / half
}

/// Returns the row that maps the range from `low` to `high` along a vector to coordinates, scaled as far as possible.
fn row_between(by: Point, low: i64, high: i64) -> Option<Row> {
    let centre = low.saturating_add(high.saturating_sub(low) / 2);
    let most = high.saturating_sub(centre).max(centre.saturating_sub(low));
    let half = u32::try_from(most).ok()?;
    if half < 1 || half > COORDINATE_LIMIT || centre.unsigned_abs() > CENTRE_LIMIT {
        return None;
    }
    let scale = i64::from(scale_over(half));
    Some(Row { by, centre, scale })
}

/// Returns the row along a vector that maps all points to coordinates.
fn row_over(by: Point, pts: &[Point]) -> Option<Row> {
    let first = reach(by, *pts.first()?);
    let mut low = first;
    let mut high = first;
    for point in pts {
        let place = reach(by, *point);
        low = low.min(place);
        high = high.max(place);
    }
    row_between(by, low, high)
}

/// Returns the map by rows that maps all points to coordinates, if there is one.
fn map_over(rows: &Rows, pts: &[Point]) -> Option<LatticeMap> {
    let first = row_over(rows.first, pts)?;
    let second = row_over(rows.second, pts)?;
    let third = row_over(rows.third, pts)?;
    LatticeMap::new(first, second, third)
}

/// Returns the images of points under the map by rows, if there is one.
fn images_by(alloc: Global, rows: &Rows, pts: &[Point]) -> Result<Option<Vec<Point>>, AllocError>
    ensures { IfOk result (λ r. IfSome r (λ v. IsMapped pts.now v.items)) }
{
    match map_over(rows, pts) {
        Some(map) => map.images(alloc, pts),
        None => Ok(None),
    }
}

/// Returns true if the points of ids span space.
fn is_solid(pts: &[Point], ids: &[Id]) -> bool
    requires some { 0 < length ids.now }
    requires indices { AreIndices pts.now ids.now }
    ensures { IsTrue result → IsIdSet pts.now ids.now → IsDimension (place pts.now) (Members ids.now) 3 }
{
    match rank(pts, ids) {
        Shape::Solid(_, _, _, _) => true,
        _ => false,
    }
}

/// Returns the images of all points under a map that makes the points of the ids extend about equally in all
/// directions, or `None` if no map is needed or found. It is not specified when that is the case.
///
/// The ids, at least one, are indices of the points. The map is linear over whole numbers, with a determinant above 0,
/// and a shift. If there is a map, the ids are those of a solid, so the images have the hull of the points.
///
/// # Errors
///
/// `Memory` if an allocation failed.
///
/// Source: Nguyen and Stehlé 2009 (reduction of lattice bases in low dimensions).
pub fn reduced(alloc: Global, pts: &[Point], ids: &[Id]) -> Result<Option<Vec<Point>>, Memory>
    requires some { 0 < length ids.now }
    requires indices { AreIndices pts.now ids.now }
    ensures { IfOk result (λ r. IfSome r (λ images. IsReduced pts.now ids.now images.items)) }
{
    if ids.len() < MANY {
        return Ok(None);
    }
    let sample = sample_of(alloc, pts, ids)?;
    let Some(rows) = short_rows(&sample) else {
        return Ok(None);
    };
    if !is_solid(pts, ids) {
        return Ok(None);
    }
    Ok(images_by(alloc, &rows, pts)?)
}
