//! Converts judgements on faces to the numbers that C uses.
ghost use Rattle.std.specs.Prelude.{◌≡◌, ◌≤◌, ◌<◌, IfOk, length};
ghost use Rattle.std.specs.List.{All};
ghost use Rattle.qh_model.specs.{contract.Places.IsPlace, declared.limits.TheConstants.POINT_LIMIT};
ghost use Rattle.qconvex_c.specs.contract.Checked.{IsVerdictOn, of_kind, on_edge, on_face, verdict_of};
ghost use Rattle.qconvex_c.specs.contract.Sets.{AreStarts};

use crate::cut_faces::cut_faces;
use crate::given::{CPoint, points_of};
use crate::kind::{ABOVE, NO_PLANE, OPEN, OTHER_FACE, OTHERS, RIGHT, STRANGER, TWICE};
use crate::verdict::Verdict;
use qh_check::{FaceFault, Judgement, SurfaceVerdict, judge_faces_alone};
use qh_model::Memory;
use std::alloc::Global;

/// Returns the verdict of a kind that needs neither a face nor a point; its other numbers are 0.
pub fn of_kind(kind: u32) -> Verdict
    ensures { result ≡ of_kind kind }
{
    Verdict {
        kind,
        point: 0,
        from: 0,
        to: 0,
        face: 0,
    }
}

/// Returns a verdict on a face, and on a point.
fn on_face(kind: u32, face: usize, point: u32) -> Verdict
    ensures { result ≡ on_face kind face point }
{
    Verdict {
        point,
        face,
        ..of_kind(kind)
    }
}

/// Returns a verdict on the edge from a point to another.
fn on_edge(kind: u32, from: u32, to: u32) -> Verdict
    ensures { result ≡ on_edge kind from to }
{
    Verdict {
        from,
        to,
        ..of_kind(kind)
    }
}

/// Returns the verdict of a judgement.
pub fn verdict_of(judgement: Judgement) -> Verdict
    ensures { result ≡ verdict_of judgement }
{
    match &judgement {
        Judgement::Stranger(face) => on_face(STRANGER, *face, 0),
        Judgement::Told(SurfaceVerdict::Right) => of_kind(RIGHT),
        Judgement::Told(SurfaceVerdict::OtherPolygons) => of_kind(OTHERS),
        Judgement::Told(SurfaceVerdict::NoPiece(face, fault)) => match fault {
            FaceFault::NoPlane => on_face(NO_PLANE, *face, 0),
            FaceFault::Above(point) => on_face(ABOVE, *face, point.number()),
            FaceFault::OtherFace => on_face(OTHER_FACE, *face, 0),
        },
        Judgement::Told(SurfaceVerdict::Open(from, to)) => {
            on_edge(OPEN, from.number(), to.number())
        }
        Judgement::Told(SurfaceVerdict::Twice(from, to)) => {
            on_edge(TWICE, from.number(), to.number())
        }
    }
}

/// Returns the judgement on faces of valid points, whose corners are in one list.
///
/// # Errors
///
/// `Memory` if an allocation failed.
pub fn judgement_on(
    alloc: Global,
    points: &[CPoint],
    offsets: &[usize],
    corners: &[u32],
) -> Result<Judgement, Memory>
    requires some { 0 < length points.now }
    requires few { length points.now ≤ POINT_LIMIT }
    requires places { All IsPlace points.now }
    requires starts { AreStarts (length corners.now) offsets.now }
    ensures { IfOk result (λ j. IsVerdictOn points.now offsets.now corners.now (verdict_of j)) }
{
    let pts = points_of(alloc, points)?;
    let faces = cut_faces(alloc, offsets, corners)?;
    judge_faces_alone(alloc, &pts, &pts, &faces)
}
