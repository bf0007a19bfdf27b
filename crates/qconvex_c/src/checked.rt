//! The C function that checks faces.
ghost use Rattle.std.specs.Prelude.{◌≡◌, ◌≢◌, ◌≤◌, ◌<◌, ◌↔◌, length};
ghost use Rattle.std.specs.List.{All};
ghost use Rattle.qh_model.specs.{contract.Places.IsPlace, declared.limits.TheConstants.POINT_LIMIT};
ghost use Rattle.qconvex_c.specs.contract.Checked.{AreHullFaces, IsVerdictOn};
ghost use Rattle.qconvex_c.specs.contract.Codes.{QCONVEX_DONE, QCONVEX_NO_POINT, QCONVEX_TOO_MANY, QCONVEX_RANGE};
ghost use Rattle.qconvex_c.specs.contract.Codes.{QCONVEX_ROOM, QCONVEX_STARTS, QCONVEX_RIGHT};
ghost use Rattle.qconvex_c.specs.contract.Sets.{AreStarts};

use crate::code::{DONE, MEMORY, STARTS};
use crate::given::CPoint;
use crate::judging::judge;
use crate::sets::are_starts;
use crate::told::{judgement_on, verdict_of};
use crate::verdict::Verdict;
use std::alloc::Global;

/// Checks whether faces are the surface of the hull of points: its faces, or pieces of them such as triangles,
/// counterclockwise seen from outside, in any order, each from any corner on.
///
/// Face j has the corners from `offsets[j]` to before `offsets[j + 1]`, so there is one face fewer than offsets. A
/// corner is the index of a point; of equal points, any index is allowed.
///
/// Returns `DONE` if `verdict` was written: `RIGHT`, or a fault, with `face` as the position of a face, `point` as a
/// point above its plane, or `from` and `to` as the ends of an edge. A point is named by the lowest index of the points
/// equal to it. Fields that do not apply to the kind are 0.
///
/// Else it returns `NO_POINT`, `TOO_MANY`, `RANGE` or `MEMORY`, as [`qconvex_hull`](crate::qconvex_hull) does, or
/// `STARTS` if there is no offset, the offsets do not rise, or one is beyond the corners. Then `verdict` is unchanged.
#[unsafe(no_mangle)]
pub extern "C" fn qconvex_check(
    alloc: Global,
    points: &[CPoint],
    offsets: &[usize],
    corners: &[u32],
    verdict: &mut Verdict,
) -> u32
    ensures done { result ≡ QCONVEX_DONE → IsVerdictOn points.now offsets.now corners.now verdict.new }
    ensures right { result ≡ QCONVEX_DONE → (verdict.new.kind ≡ QCONVEX_RIGHT) ↔ AreHullFaces points.now offsets.now corners.now }
    ensures none { (result ≡ QCONVEX_NO_POINT) ↔ (length points.now ≡ 0) }
    ensures many { (result ≡ QCONVEX_TOO_MANY) ↔ (POINT_LIMIT < length points.now) }
    ensures range { (result ≡ QCONVEX_RANGE) ↔ ((0 < length points.now) × (length points.now ≤ POINT_LIMIT) × ¬ (All IsPlace points.now)) }
    ensures starts { (result ≡ QCONVEX_STARTS) ↔ ((0 < length points.now) × (length points.now ≤ POINT_LIMIT) × All IsPlace points.now
        × ¬ (AreStarts (length corners.now) offsets.now)) }
    ensures codes { result ≤ QCONVEX_STARTS }
    ensures room { result ≢ QCONVEX_ROOM }
    ensures kept { result ≢ QCONVEX_DONE → verdict.new ≡ verdict.old }
{
    if let Err(fault) = judge(points) {
        return fault.code();
    }
    if !are_starts(offsets, corners.len()) {
        return STARTS;
    }
    match judgement_on(alloc, points, offsets, corners) {
        Ok(judgement) => {
            *verdict = verdict_of(judgement);
            DONE
        }
        Err(_) => MEMORY,
    }
}
