//! Six times the volume inside triangles.
ghost use Rattle.std.specs.Prelude.{◌≡◌, ◌≢◌, ◌⊎◌, ◌<◌, ◌↔◌, ◌+◌, ◌*◌, ◌^◌, pos, length, IsTrue, IfSome, IfNone};
ghost use Rattle.std.specs.{Int.w128, Int.cast_unsigned, List.All};
ghost use Rattle.qh_model.specs.{contract.IdSets.AreIndices, contract.Places.IsPlace, headline.Predicates.place};
ghost use Rattle.qconvex_c.specs.contract.Volumes.{six_volumes, PartialSumsFit};
ghost use Rattle.qconvex_c.specs.contract.Codes.{QCONVEX_DONE, QCONVEX_NO_POINT, QCONVEX_RANGE, QCONVEX_ROOM};

use crate::code::{DONE, NO_POINT, RANGE, ROOM};
use crate::given::{CPoint, are_places, point_of};
use qh_pred::vol;

/// A whole number of 128 bits, two's complement, in two words.
#[repr(C)]
#[derive(Clone, Copy, Debug)]
pub struct Wide {
    /// The lower 64 bits.
    pub low: u64,
    /// The upper 64 bits.
    pub high: u64,
}

/// Returns the words of a number.
fn words_of(number: i128) -> Wide
    ensures { result.low + 2 ^ 64 * result.high ≡ cast_unsigned w128 number }
{
    let bits = number.cast_unsigned();
    Wide {
        low: (bits % (1 << 64)) as u64,
        high: (bits / (1 << 64)) as u64,
    }
}

/// Returns true if each corner is the index of a point.
fn are_indices(corners: &[u32], points: &[CPoint]) -> bool
    ensures { IsTrue result ↔ AreIndices points.now corners.now }
{
    corners
        .iter()
        .all(|corner| (*corner as usize) < points.len())
}

/// Returns the sum over triangles, or `None` if the sum or a partial sum does not fit into 128 bits.
fn sum_of_volumes(points: &[CPoint], triangles: &[u32]) -> Option<i128>
    requires some { 0 < length points.now }
    requires places { All IsPlace points.now }
    requires indices { AreIndices points.now triangles.now }
    ensures sum { IfSome result (λ v. v ≡ six_volumes (place points.now) (place points.now 0) triangles.now) }
    ensures none { IfNone result (¬ (PartialSumsFit (place points.now) (place points.now 0) (pos 0) triangles.now)) }
{
    let apex = point_of(points, 0);
    let mut total = 0i128;
    for number in 0..triangles.len() / 3 {
        let first = 3 * number;
        let volume = vol(
            apex,
            point_of(points, triangles[first]),
            point_of(points, triangles[first + 1]),
            point_of(points, triangles[first + 2]),
        );
        match total.checked_add(volume) {
            None => return None,
            Some(sum) => total = sum,
        }
    }
    Some(total)
}

/// Computes six times the volume inside triangles that close up, as those of `qconvex_fans` do: the sum of the
/// determinants of the corners of each triangle, relative to the first point. It is exact, and above 0 if the triangles
/// are counterclockwise seen from outside.
///
/// `triangles` has three corners for each triangle; one or two extra elements at the end are ignored. Returns `DONE` if
/// `volume` is the sum, `NO_POINT`, `RANGE` if a coordinate is out of range or a corner is not the index of a point, or
/// `ROOM` if the sum or a partial sum has more than 128 bits. `volume` is unchanged except for `DONE`.
#[unsafe(no_mangle)]
pub extern "C" fn qconvex_six_volumes(
    points: &[CPoint],
    triangles: &[u32],
    volume: &mut Wide,
) -> u32
    ensures done { result ≡ QCONVEX_DONE
        → volume.new.low + 2 ^ 64 * volume.new.high ≡ cast_unsigned w128
        (six_volumes (place points.now) (place points.now 0) triangles.now) }
    ensures none { (result ≡ QCONVEX_NO_POINT) ↔ (length points.now ≡ 0) }
    ensures range { (result ≡ QCONVEX_RANGE)
        ↔ ((0 < length points.now) × ¬ (All IsPlace points.now × AreIndices points.now triangles.now)) }
    ensures room { result ≡ QCONVEX_ROOM
        → ¬ (PartialSumsFit (place points.now) (place points.now 0) (pos 0) triangles.now) }
    ensures codes { (result ≡ QCONVEX_DONE) ⊎ (result ≡ QCONVEX_NO_POINT) ⊎ (result ≡ QCONVEX_RANGE) ⊎ (result ≡ QCONVEX_ROOM) }
    ensures kept { result ≢ QCONVEX_DONE → volume.new ≡ volume.old }
{
    if points.is_empty() {
        return NO_POINT;
    }
    if !are_places(points) || !are_indices(triangles, points) {
        return RANGE;
    }
    match sum_of_volumes(points, triangles) {
        None => ROOM,
        Some(sum) => {
            *volume = words_of(sum);
            DONE
        }
    }
}
