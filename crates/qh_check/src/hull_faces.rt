//! Checks if a polygon is a piece of a given face of a hull.
//!
//! The corners of a face are in its polygon in order, so no plane is tested again. A piece is a list of corners met on
//! the way round the face, and its first three corners turn as those of the face do.
ghost use Rattle.std.specs.Prelude.{IsTrue};
ghost use Rattle.qh_check.specs.steps.HullFaces.{IsPieceOfFace, TurnsAlike};

use crate::faces::FirstThree;
use crate::rounds::{goes_round, is_met_round};
use qh_model::{Point, Polygon};
use qh_pred::{cross, left, point_at};

/// The greatest number of corners of a face that is walked round to find a piece.
const SMALL: usize = 8;

/// Faces of the hull of points, in rising order.
#[derive(Clone, Copy, Drop)]
pub(crate) struct HullFaces<'a> {
    pub pts: &'a [Point],
    pub faces: &'a [Polygon],
}

/// Returns true if the first three corners of a polygon turn left in the plane of a face, seen from the side from which
/// the face is.
fn turns_alike(pts: &[Point], face: &Polygon, claimed: &Polygon) -> bool
    ensures { IsTrue result → TurnsAlike pts.now face.now claimed.now }
{
    let Some(plane) = FirstThree::of(pts, face) else {
        return false;
    };
    let Some(three) = FirstThree::of(pts, claimed) else {
        return false;
    };
    let normal = cross(
        point_at(pts, plane.i),
        point_at(pts, plane.j),
        point_at(pts, plane.k),
    );
    left(
        &normal,
        point_at(pts, three.i),
        point_at(pts, three.j),
        point_at(pts, three.k),
    )
    .is_gt()
}

impl HullFaces<'_> {
    /// Returns true if the face at a position has few corners, and a polygon goes round corners of it.
    pub fn has_small_at(self, position: usize, claimed: &Polygon) -> bool
        ensures { IsTrue result → IsPieceOfFace self.entry.pts.now self.entry.faces.now position claimed.now }
    {
        if position >= self.faces.len() {
            return false;
        }
        let face = &self.faces[position];
        face.ids().len() <= SMALL
            && is_met_round(claimed.ids(), face.ids())
            && turns_alike(self.pts, face, claimed)
    }

    /// Returns true if a polygon goes round corners of the face at a position. `corners` has their positions in the
    /// face.
    pub fn has_piece_at(self, position: usize, claimed: &Polygon, corners: &[usize]) -> bool
        ensures { IsTrue result → IsPieceOfFace self.entry.pts.now self.entry.faces.now position claimed.now }
    {
        if position >= self.faces.len() {
            return false;
        }
        let face = &self.faces[position];
        goes_round(claimed.ids(), face.ids(), corners) && turns_alike(self.pts, face, claimed)
    }
}
