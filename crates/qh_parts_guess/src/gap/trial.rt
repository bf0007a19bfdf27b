//! The rule that decides, by a sample, whether dividing a set into parts pays.
//!
//! The sample is cut into parts along a curve, as the set would be, and has one hull. The ends of the set are in each
//! part. A corner is at a seam if a face there has corners in several parts. Large faces, and long ones, put most
//! corners at seams. A slanted thin set has planes that come near most points (`nearness`).
ghost use Rattle.std.specs.Prelude.{◌<◌, IfOk, length};
ghost use Rattle.qh_model.specs.contract.IdSets.{AreIndices};

use crate::curve::CurveCell;
use crate::gap::flood::indices_among;
use crate::gap::nearness::{come_near_few, ways_out};
use qh_model::keys::Packed;
use qh_model::{Body, Id, Memory, Point, Polygon};
use qh_polygon::rising_ids;
use qh_surface::starts::{Axes, ends_of};
use std::alloc::{AllocError, Global};

/// The greatest number of ids in a sample.
const SAMPLE: usize = 1_024;

/// The greatest share of a sample's corners at seams for dividing to pay, in sixteenths.
const AT_SEAMS: usize = 10;

/// The same for fewer than four parts. Their seams cut across the octants of the curve, where they cut more of the long
/// faces of a set than of its sample. A prism has 0.34 there, and a round set at most 0.28.
const AT_FEW_SEAMS: usize = 5;

/// Ids of a set, rising, each with the number of its part. Ids that belong to every part have no number.
#[derive(Drop)]
struct Sample {
    ids: Vec<Id>,
    parts: Vec<Option<usize>>,
}

/// Returns a number below a limit, without regularity for consecutive arguments. For a limit of 0 it is 0.
///
/// Source: Knuth 1998, 6.4 (multiplication by the golden section).
fn scattered(number: usize, limit: usize) -> usize {
    let product = (number as u64).wrapping_mul(0x9e37_79b9_7f4a_7c15);
    let high = (product >> 32) as usize;
    high.checked_rem(limit).unwrap_or(0)
}

/// Returns the ends of a set, and ids spread over the whole set.
fn spread_with(alloc: Global, ids: &[Id], ends: &[Id; 6]) -> Result<Vec<Id>, AllocError> {
    let step = ids.len() / SAMPLE + 1;
    let mut spread = Vec::from_slice(alloc, ends)?;
    for number in 0..ids.len() / step {
        let place = step
            .saturating_mul(number)
            .saturating_add(scattered(number, step));
        if let Some(id) = ids.get(place) {
            spread.push(*id)?;
        }
    }
    Ok(spread)
}

/// Returns sorted keys of the ids that are not ends: the cell of the point, then the position of the id in the list.
fn keys_by_cell(
    alloc: Global,
    pts: &[Point],
    ids: &[Id],
    ends: &[Id; 6],
) -> Result<Vec<Packed>, AllocError>
    requires { AreIndices pts.now ends.now }
{
    let axes = Axes::of(pts, ends);
    let mut keys = Vec::with_capacity(alloc, ids.len())?;
    for (place, id) in (0..u32::MAX).zip(ids) {
        if ends.contains(id) {
            continue;
        }
        if let Some(point) = pts.get(id.index()) {
            keys.push(Packed::new(CurveCell::of(&axes, *point).interleaved(), place))?;
        }
    }
    keys.sort_unstable();
    Ok(keys)
}

/// Returns true if the planes of the faces of a sample come near few of its points. `keys` has its ids along a curve.
fn are_planes_apart(
    alloc: Global,
    pts: &[Point],
    sampled: &[Id],
    keys: &[Packed],
    polygons: &[Polygon],
) -> Result<bool, Memory> {
    let ways = ways_out(alloc, pts, sampled, polygons)?;
    let mut listed = Vec::with_capacity(alloc, keys.len())?;
    let mut outward = Vec::with_capacity(alloc, keys.len())?;
    for key in keys {
        let place = key.low() as usize;
        if let (Some(id), Some(way)) = (sampled.get(place), ways.get(place)) {
            listed.push(*id)?;
            outward.push(*way)?;
        }
    }
    let ids = indices_among(alloc, pts, &listed)?;
    come_near_few(alloc, pts, &ids, &outward, polygons)
}

/// Returns the number of the part for each of `places` positions, if sorted keys are cut into `count` parts.
fn parts_of_places(
    alloc: Global,
    keys: &[Packed],
    places: usize,
    count: usize,
) -> Result<Vec<Option<usize>>, AllocError> {
    let mut parts = vec![in alloc; None; places]?;
    for position in 0..keys.len() {
        if let Some(part) = parts.get_mut(keys[position].low() as usize) {
            *part = Some(position.saturating_mul(count) / keys.len());
        }
    }
    Ok(parts)
}

impl Sample {
    /// Returns the position of an id.
    fn place(&self, id: Id) -> usize {
        self.ids
            .partition_point(|other| other.number() < id.number())
    }

    /// Returns the number of an id's part, if the id belongs to one part only.
    fn part(&self, id: Id) -> Option<usize> {
        *self.parts.get(self.place(id))?
    }

    /// Returns true if a polygon has corners in several parts.
    fn is_split(&self, polygon: &Polygon) -> bool {
        let mut found = None;
        for id in polygon.ids() {
            let part = self.part(*id);
            if part.is_some() && found.is_some() && part != found {
                return true;
            }
            found = part.or(found);
        }
        false
    }

    /// Marks the corners of a polygon.
    fn mark(&self, polygon: &Polygon, marks: &mut [bool]) {
        for id in polygon.ids() {
            if let Some(mark) = marks.get_mut(self.place(*id)) {
                *mark = true;
            }
        }
    }

    /// Returns the number of corners of polygons that are at a seam.
    fn corners_at_seams(&self, alloc: Global, polygons: &[Polygon]) -> Result<usize, AllocError> {
        let mut marks = vec![in alloc; false; self.ids.len()]?;
        for polygon in polygons {
            if self.is_split(polygon) {
                self.mark(polygon, &mut marks);
            }
        }
        Ok(marks.iter().filter(|mark| **mark).count())
    }
}

/// Returns a sample of a set, rising: the ends of the set, and ids spread over the whole set. They are indices of points.
///
/// # Errors
///
/// `Memory` if an allocation failed.
pub fn trial_sample(alloc: Global, pts: &[Point], ids: &[Id]) -> Result<Vec<Id>, Memory>
    requires some { 0 < length ids.now }
    requires indices { AreIndices pts.now ids.now }
    ensures { IfOk result (λ v. AreIndices pts.now v.items) }
{
    let ends = ends_of(pts, ids);
    let rising = rising_ids(alloc, &spread_with(alloc, ids, &ends)?)?;
    Ok(indices_among(alloc, pts, &rising)?)
}

/// Returns true if dividing a set into `count` parts is likely to pay, by the hull of its sample, `trial_sample`: few of
/// the corners are at seams, and the planes of the faces come near few points of the sample.
///
/// # Errors
///
/// `Memory` if an allocation failed.
pub fn is_worth_parting(
    alloc: Global,
    pts: &[Point],
    sampled: Vec<Id>,
    body: &Body,
    count: usize,
) -> Result<bool, Memory>
    requires some { 0 < length sampled.items }
    requires indices { AreIndices pts.now sampled.items }
{
    let ends = ends_of(pts, &sampled);
    let keys = keys_by_cell(alloc, pts, &sampled, &ends)?;
    if !are_planes_apart(alloc, pts, &sampled, &keys, &body.polygons)? {
        return Ok(false);
    }
    let sample = Sample {
        parts: parts_of_places(alloc, &keys, sampled.len(), count)?,
        ids: sampled,
    };
    let at_seams = sample.corners_at_seams(alloc, &body.polygons)?;
    let most = if count < 4 { AT_FEW_SEAMS } else { AT_SEAMS };
    Ok(at_seams.saturating_mul(16) <= body.extremes.len().saturating_mul(most))
}
