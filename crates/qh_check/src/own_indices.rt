//! Faces whose corners are the distinct ids themselves, so that no corner has to be renamed.
ghost use Rattle.std.specs.Prelude.{◌<◌, All, IsTrue};
ghost use Rattle.qh_check.specs.contract.Naming.{AreNamedFaces};
ghost use Rattle.qh_check.specs.steps.OwnIndices.{AreAllIndices, AreSamePoints};

use crate::naming::are_same;
use qh_model::{Id, Point, Polygon};

/// Returns true if ids are all numbers below `count`, in order.
fn are_all_indices(ids: &[Id], count: usize) -> bool
    ensures { IsTrue result → AreAllIndices ids.now count }
{
    ids.len() == count && ids.iter().enumerate().all(|(k, id)| id.index() == k)
}

/// Returns true if two lists have the same points in the same order.
#[tactic(auto, unfolding(qh_model::specs::headline::Predicates::place))]
fn are_same_points(pts: &[Point], named: &[Point]) -> bool
    ensures { IsTrue result → AreSamePoints pts.now named.now }
{
    pts.len() == named.len() && pts.iter().zip(named).all(|(p, q)| are_same(*p, *q))
}

/// Returns true if each corner of a face is below `count`.
fn are_below(face: &Polygon, count: usize) -> bool
    ensures { IsTrue result → All (λ i. i < count) face.now }
{
    face.ids().iter().all(|id| id.index() < count)
}

/// Returns true if the corners of faces are indices of points, and all of them are distinct ids, so that the faces need
/// no renaming.
#[tactic(auto, using(crate::proofs::OwnIndices::own_faces))]
pub fn are_own(pts: &[Point], ids: &[Id], named: &[Point], faces: &[Polygon]) -> bool
    ensures { IsTrue result → AreNamedFaces pts.now ids.now named.now faces.now faces.now }
{
    if !are_all_indices(ids, pts.len()) || !are_same_points(pts, named) {
        return false;
    }
    for face in faces {
        if !are_below(face, pts.len()) {
            return false;
        }
    }
    true
}
