//! A table that finds a face of a hull by its corners.
//!
//! A face begins with its least corner, and the faces are sorted, so a piece with the first step of its face is found by
//! this step, as each triangle is. Pieces often follow one another in their face. All others are found by their corners
//! (`corner_table`).
//!
//! The table itself is not proved: `hull_faces` checks that the polygon is a piece of the face that was found.
ghost use Rattle.std.specs.Prelude.{IfOk, IsTrue};
ghost use Rattle.qh_check.specs.steps.HullFaces.{IsPieceAmong};

use crate::corner_table::{CornerTable, narrow};
use crate::hull_faces::HullFaces;
use qh_model::Polygon;
use std::alloc::{AllocError, Global};

/// An index of the faces of a hull.
#[derive(Drop)]
pub(crate) struct FaceTable {
    /// For each id the number of faces that begin with a lower id.
    starts: Vec<u32>,
    /// The corners of the faces with more than three corners.
    corners: CornerTable,
    /// The position of the face with which a polygon was compared last.
    last: usize,
    /// The positions of the corners of a piece.
    positions: Vec<usize>,
}

/// Returns for each id below a count the number of faces that begin with a lower id, and then the number of all faces.
fn starts_of(alloc: Global, faces: &[Polygon], count: usize) -> Result<Vec<u32>, AllocError> {
    let mut starts = Vec::with_capacity(alloc, count.saturating_add(1))?;
    for (position, face) in faces.iter().enumerate() {
        if let Some(first) = face.ids().first() {
            let behind = first.index().min(count).saturating_add(1);
            starts.resize(behind.max(starts.len()), narrow(position))?;
        }
    }
    starts.resize(count.saturating_add(1), narrow(faces.len()))?;
    Ok(starts)
}

impl FaceTable {
    /// Returns the table of the faces of a hull of `count` points, in rising order.
    pub fn over(alloc: Global, faces: &[Polygon], count: usize) -> Result<FaceTable, AllocError> {
        Ok(FaceTable {
            starts: starts_of(alloc, faces, count)?,
            corners: CornerTable::over(alloc, faces, count)?,
            last: 0,
            positions: Vec::new(alloc),
        })
    }

    /// Returns the position of the face whose first step is that from the least corner of a polygon, if there is one,
    /// and otherwise of another face, often one that begins with this corner.
    fn position_of(&self, faces: &[Polygon], claimed: &Polygon) -> Option<usize> {
        let (from, to) = claimed.sides().min()?;
        let start = *self.starts.get(from.index())? as usize;
        let end = *self.starts.get(from.index().saturating_add(1))? as usize;
        let begun = faces.get(start..end)?;
        let up_to = begun.partition_point(|face| face.ids().get(1).is_some_and(|id| *id <= to));
        Some(start.saturating_add(up_to.saturating_sub(1)))
    }

    /// Returns true if the table shows a polygon to be a piece of one of the faces.
    pub fn has_piece(&mut self, hull: HullFaces, claimed: &Polygon) -> Result<bool, AllocError>
        ensures { IfOk result (λ b. IsTrue b → IsPieceAmong hull.entry.pts.now hull.entry.faces.now claimed.now) }
    {
        if hull.has_small_at(self.last, claimed) {
            return Ok(true);
        }
        self.last = self.position_of(hull.faces, claimed).unwrap_or(0);
        if hull.has_small_at(self.last, claimed) {
            return Ok(true);
        }
        for corner in self.corners.fewest(claimed.ids()) {
            self.last = corner.face as usize;
            self.corners
                .list_positions(claimed.ids(), corner.face, &mut self.positions)?;
            if hull.has_piece_at(self.last, claimed, &self.positions) {
                return Ok(true);
            }
        }
        Ok(false)
    }
}
