//! The functions that C calls.
ghost use Rattle.std.specs.Prelude.{◌≡◌, ◌≢◌, ◌≤◌, ◌<◌, ◌↔◌, ◌+◌, ◌*◌, length, take, drop};
ghost use Rattle.std.specs.List.{All};
ghost use Rattle.qh_model.specs.contract.Places.{IsPlace};
ghost use Rattle.qh_model.specs.declared.limits.TheConstants.{POINT_LIMIT};
ghost use Rattle.qconvex_c.specs.contract.Answered.{IsAnswered, NeedsRoom};
ghost use Rattle.qconvex_c.specs.contract.Triangles.{AreFans, NeedsFanRoom};
ghost use Rattle.qconvex_c.specs.contract.Codes.{QCONVEX_DONE, QCONVEX_NO_POINT, QCONVEX_TOO_MANY, QCONVEX_RANGE, QCONVEX_ROOM};

use crate::buffers::{Buffers, fill};
use crate::code::{DONE, MEMORY, ROOM};
use crate::fan_lists::{fan_lists_of, fill_fans};
use crate::given::CPoint;
use crate::given_hull::given_hull;
use crate::judging::judge;
use crate::sizes::Sizes;
use std::alloc::Global;

/// Computes the hull of points, and writes it to buffers of the caller.
///
/// Returns `DONE` if the hull was written: `sizes` has its counts, `extremes` begins with the extreme ids, rising, and
/// `corners` with the corners of the faces, one face after the other. The corners of face j are those from `offsets[j]`
/// to before `offsets[j + 1]`, counterclockwise seen from outside.
///
/// Else it returns `NO_POINT`, `TOO_MANY` for more than `POINT_LIMIT` points, `RANGE` for a coordinate out of range,
/// `MEMORY` if an allocation failed, or `ROOM` if a buffer is too short. For `ROOM`, `sizes` has the counts of the
/// hull, which give the lengths that the buffers need; for the other codes it is unchanged. The buffers are unchanged.
/// Elements of a buffer after the answer are never changed.
#[unsafe(no_mangle)]
pub extern "C" fn qconvex_hull(
    alloc: Global,
    points: &[CPoint],
    sizes: &mut Sizes,
    extremes: &mut [u32],
    offsets: &mut [usize],
    corners: &mut [u32],
) -> u32
    ensures done { result ≡ QCONVEX_DONE → IsAnswered points.now sizes.new extremes.new offsets.new corners.new }
    ensures none { (result ≡ QCONVEX_NO_POINT) ↔ (length points.now ≡ 0) }
    ensures many { (result ≡ QCONVEX_TOO_MANY) ↔ (POINT_LIMIT < length points.now) }
    ensures range { (result ≡ QCONVEX_RANGE) ↔ ((0 < length points.now) × (length points.now ≤ POINT_LIMIT) × ¬ (All IsPlace points.now)) }
    ensures room { result ≡ QCONVEX_ROOM → NeedsRoom points.now sizes.new extremes.old offsets.old corners.old }
    ensures codes { result ≤ QCONVEX_ROOM }

    // The elements after the answer in each buffer, and everything that a refusal leaves unchanged.
    ensures extremes_rest { result ≡ QCONVEX_DONE → drop sizes.new.extremes extremes.new ≡ drop sizes.new.extremes extremes.old }
    ensures offsets_rest { result ≡ QCONVEX_DONE → drop (sizes.new.faces + 1) offsets.new ≡ drop (sizes.new.faces + 1) offsets.old }
    ensures corners_rest { result ≡ QCONVEX_DONE → drop sizes.new.corners corners.new ≡ drop sizes.new.corners corners.old }
    ensures extremes_kept { result ≢ QCONVEX_DONE → extremes.new ≡ extremes.old }
    ensures offsets_kept { result ≢ QCONVEX_DONE → offsets.new ≡ offsets.old }
    ensures corners_kept { result ≢ QCONVEX_DONE → corners.new ≡ corners.old }
    ensures sizes_kept { result ≢ QCONVEX_DONE → result ≢ QCONVEX_ROOM → sizes.new ≡ sizes.old }
{
    match given_hull(alloc, points) {
        Ok(flat) => {
            *sizes = flat.sizes;
            let mut buffers = Buffers {
                extremes,
                offsets,
                corners,
            };
            if fill(&flat, &mut buffers) {
                DONE
            } else {
                ROOM
            }
        }
        Err(fault) => fault.code(),
    }
}

/// Computes the faces of the hull of points as fans of triangles, with their normals, and writes them to buffers of the
/// caller.
///
/// Returns `DONE` if the fans were written: `count` is the number of triangles, `triangles` begins with the corners of
/// each, counterclockwise seen from outside, and `normals` with the three components of the outer normal of each. The
/// normal is the cross product of two sides; it is exact, since 64 bits hold it for all coordinates in range. Points in
/// a line have no triangles.
///
/// Else it returns a code as [`qconvex_hull`] does; for `ROOM`, each of the two buffers needs three times `count`
/// elements. The buffers are unchanged, and except for `ROOM` so is `count`.
#[unsafe(no_mangle)]
pub extern "C" fn qconvex_fans(
    alloc: Global,
    points: &[CPoint],
    count: &mut usize,
    triangles: &mut [u32],
    normals: &mut [i64],
) -> u32
    ensures done { result ≡ QCONVEX_DONE → AreFans points.now count.new (take (3 * count.new) triangles.new) (take (3 * count.new) normals.new) }
    ensures none { (result ≡ QCONVEX_NO_POINT) ↔ (length points.now ≡ 0) }
    ensures many { (result ≡ QCONVEX_TOO_MANY) ↔ (POINT_LIMIT < length points.now) }
    ensures range { (result ≡ QCONVEX_RANGE) ↔ ((0 < length points.now) × (length points.now ≤ POINT_LIMIT) × ¬ (All IsPlace points.now)) }
    ensures room { result ≡ QCONVEX_ROOM → NeedsFanRoom points.now count.new triangles.old normals.old }
    ensures codes { result ≤ QCONVEX_ROOM }

    // The elements after the answer in each buffer, and everything that a refusal leaves unchanged.
    ensures triangles_rest { result ≡ QCONVEX_DONE → drop (3 * count.new) triangles.new ≡ drop (3 * count.new) triangles.old }
    ensures normals_rest { result ≡ QCONVEX_DONE → drop (3 * count.new) normals.new ≡ drop (3 * count.new) normals.old }
    ensures triangles_kept { result ≢ QCONVEX_DONE → triangles.new ≡ triangles.old }
    ensures normals_kept { result ≢ QCONVEX_DONE → normals.new ≡ normals.old }
    ensures count_kept { result ≢ QCONVEX_DONE → result ≢ QCONVEX_ROOM → count.new ≡ count.old }
{
    if let Err(fault) = judge(points) {
        return fault.code();
    }
    let Ok(fans) = fan_lists_of(alloc, points) else {
        return MEMORY;
    };
    *count = fans.count;
    if fill_fans(&fans, triangles, normals) {
        DONE
    } else {
        ROOM
    }
}
