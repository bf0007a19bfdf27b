//! The kept ids of a set in parts: the own corners of each part, and the ids that all parts share.
ghost use Rattle.std.specs.{Prelude.◌≡◌, Prelude.IfOk, Prelude.map, List.All};
ghost use Rattle.qh_model.specs.contract.IdSets.{AreIndices};
ghost use Rattle.qh_parts_join.specs.contract.Kept.{places_of, ArePlaced};

use crate::parts::Part;
use qh_model::{Id, Point};
use qh_places::Places;
use std::alloc::{AllocError, Global};

/// The points of a set, and its kept ids: the own corners of each of its parts, by blocks, and the shared ids.
#[derive(Clone, Copy, Drop)]
pub struct Kept<'a> {
    /// All points of the set, by id.
    pub pts: &'a [Point],
    /// For each part, in the order of the parts, its own corners with their points in `pts`.
    pub corners: &'a [Places],
    /// The ids that all parts share, each below the number of points.
    pub shared: &'a [Id],
    ghost corners_in: { All (ArePlaced pts.now) corners.now },
    ghost shared_in: { AreIndices pts.now shared.now },
}

impl Kept<'_> {
    /// Returns the number of own corners of all parts.
    pub(crate) fn corner_count(self) -> usize {
        let mut count = 0usize;
        for places in self.corners {
            count = count.saturating_add(places.points.len());
        }
        count
    }
}

/// Returns the own corners of parts, by blocks, part by part. The meshes of the parts are dropped.
///
/// # Errors
///
/// `AllocError` if an allocation failed.
pub fn corners_of(alloc: Global, mut parts: Vec<Part>) -> Result<Vec<Places>, AllocError>
    ensures { IfOk result (λ v. v.items ≡ map places_of parts.items) }
{
    let mut corners = Vec::with_capacity(alloc, parts.len())?;
    while let Some(part) = parts.pop() {
        corners.push(part.places)?;
    }
    corners.reverse();
    Ok(corners)
}
