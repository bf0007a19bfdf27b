//! The hull of one of many sets, in its part of the buffers.
ghost use Rattle.std.specs.Prelude.{◌≡◌, ◌≤◌, ◌+◌, ◌*◌, length, slice_range};
ghost use Rattle.qconvex_c.specs.contract.Sets.{IsSetHull, NO_SIZES, AreKeptBetween};
ghost use Rattle.qconvex_c.specs.steps.Buffers.{AreSame, HaveParts};

use crate::buffers::Buffers;
use crate::exported::qconvex_hull;
use crate::given::CPoint;
use crate::set_answer::SetAnswer;
use crate::sets::Set;
use crate::sizes::Sizes;
use std::alloc::Global;

/// Returns sizes that are all 0.
pub fn no_sizes() -> Sizes
    ensures { result ≡ NO_SIZES }
{
    Sizes {
        points: 0,
        distinct: 0,
        dimension: 0,
        extremes: 0,
        faces: 0,
        corners: 0,
        edges: 0,
    }
}

/// Writes the hull of one set to its part of each buffer, and returns the answer of the set.
pub fn hull_of_set(alloc: Global, points: &[CPoint], set: Set, buffers: &mut Buffers) -> SetAnswer
    requires rising { set.begin ≤ set.end }
    requires within { set.end ≤ length points.now }
    requires parts { HaveParts buffers.old set }
    ensures answer { IsSetHull (slice_range points.now set.begin set.end) result
        (slice_range buffers.old.extremes.now set.begin set.end) (slice_range buffers.new.extremes.now set.begin set.end)
        (slice_range buffers.old.offsets.now (2 * set.begin + 2 * set.number) (2 * set.end + 2 * (set.number + 1)))
        (slice_range buffers.new.offsets.now (2 * set.begin + 2 * set.number) (2 * set.end + 2 * (set.number + 1)))
        (slice_range buffers.old.corners.now (6 * set.begin + 4 * set.number) (6 * set.end + 4 * (set.number + 1)))
        (slice_range buffers.new.corners.now (6 * set.begin + 4 * set.number) (6 * set.end + 4 * (set.number + 1))) }
    ensures extremes { AreKeptBetween set.begin set.end buffers.old.extremes.now buffers.new.extremes.now }
    ensures offsets { AreKeptBetween (2 * set.begin + 2 * set.number) (2 * set.end + 2 * (set.number + 1))
        buffers.old.offsets.now buffers.new.offsets.now }
    ensures corners { AreKeptBetween (6 * set.begin + 4 * set.number) (6 * set.end + 4 * (set.number + 1))
        buffers.old.corners.now buffers.new.corners.now }
    ensures same { AreSame buffers.old buffers.new }
{
    let mut sizes = no_sizes();
    let code = qconvex_hull(
        alloc,
        &points[set.begin..set.end],
        &mut sizes,
        &mut buffers.extremes[set.begin..set.end],
        &mut buffers.offsets[2 * set.begin + 2 * set.number..2 * set.end + 2 * (set.number + 1)],
        &mut buffers.corners[6 * set.begin + 4 * set.number..6 * set.end + 4 * (set.number + 1)],
    );
    SetAnswer { code, sizes }
}
