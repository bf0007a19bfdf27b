//! The C function for many sets.
ghost use Rattle.std.specs.Prelude.{◌≡◌, ◌≢◌, ◌↔◌, ◌⊎◌, ◌+◌, ◌*◌, length, drop, slice_index};
ghost use Rattle.qconvex_c.specs.contract.Sets.{AreStarts, HaveRoom, AreSetHulls, AreKeptBetween, sets_in, end_of};
ghost use Rattle.qconvex_c.specs.contract.Codes.{QCONVEX_DONE, QCONVEX_ROOM, QCONVEX_STARTS};

use crate::buffers::Buffers;
use crate::code::{DONE, ROOM, STARTS};
use crate::given::CPoint;
use crate::set_answer::SetAnswer;
use crate::set_hulls::hull_of_set;
use crate::sets::{Rooms, are_starts, have_room, set_at};
use std::alloc::Global;

/// Computes the hulls of many sets of points, and writes them to buffers of the caller.
///
/// Set j has the points from `starts[j]` to before `starts[j + 1]`, so there is one set fewer than starts. Returns
/// `DONE` if `answers` begins with the answer of each set, which is that of [`qconvex_hull`](crate::qconvex_hull) for
/// this set alone, with ids that count from the set's first point. The hull of set j is written to its part of each
/// buffer. The part begins at `starts[j]` in `extremes`, at `2 * starts[j] + 2 * j` in `offsets`, and at
/// `6 * starts[j] + 4 * j` in `corners`. If a set is refused, its parts are unchanged, and the other sets are answered.
///
/// Else nothing changes: it returns `STARTS` if the list of starts is empty, the starts do not rise, or one is beyond
/// the points, and `ROOM` if there is no room for all answers and parts.
#[unsafe(no_mangle)]
pub extern "C" fn qconvex_hulls(
    alloc: Global,
    points: &[CPoint],
    starts: &[usize],
    answers: &mut [SetAnswer],
    extremes: &mut [u32],
    offsets: &mut [usize],
    corners: &mut [u32],
) -> u32
    ensures done { result ≡ QCONVEX_DONE
        → AreSetHulls points.now starts.now answers.new extremes.old extremes.new offsets.old offsets.new corners.old corners.new }
    ensures starts { (result ≡ QCONVEX_STARTS) ↔ ¬ (AreStarts (length points.now) starts.now) }
    ensures room { result ≡ QCONVEX_ROOM
        → ¬ (HaveRoom starts.now (length answers.old) (length extremes.old) (length offsets.old) (length corners.old)) }
    ensures codes { (result ≡ QCONVEX_DONE) ⊎ (result ≡ QCONVEX_STARTS) ⊎ (result ≡ QCONVEX_ROOM) }

    // The elements before and after the parts of all sets, and everything that a refusal leaves unchanged.
    ensures answers_rest { result ≡ QCONVEX_DONE
        → drop (sets_in starts.now) answers.new ≡ drop (sets_in starts.now) answers.old }
    ensures extremes_rest { result ≡ QCONVEX_DONE
        → AreKeptBetween (slice_index starts.now 0) (end_of starts.now) extremes.old extremes.new }
    ensures offsets_rest { result ≡ QCONVEX_DONE
        → AreKeptBetween (2 * slice_index starts.now 0) (2 * end_of starts.now + 2 * sets_in starts.now) offsets.old offsets.new }
    ensures corners_rest { result ≡ QCONVEX_DONE
        → AreKeptBetween (6 * slice_index starts.now 0) (6 * end_of starts.now + 4 * sets_in starts.now) corners.old corners.new }
    ensures answers_kept { result ≢ QCONVEX_DONE → answers.new ≡ answers.old }
    ensures extremes_kept { result ≢ QCONVEX_DONE → extremes.new ≡ extremes.old }
    ensures offsets_kept { result ≢ QCONVEX_DONE → offsets.new ≡ offsets.old }
    ensures corners_kept { result ≢ QCONVEX_DONE → corners.new ≡ corners.old }
{
    if !are_starts(starts, points.len()) {
        return STARTS;
    }
    let rooms = Rooms {
        answers: answers.len(),
        extremes: extremes.len(),
        offsets: offsets.len(),
        corners: corners.len(),
    };
    if !have_room(starts, rooms) {
        return ROOM;
    }
    let mut buffers = Buffers {
        extremes,
        offsets,
        corners,
    };
    for number in 0..starts.len() - 1 {
        let set = set_at(starts, number);
        answers[number] = hull_of_set(alloc, points, set, &mut buffers);
    }
    DONE
}
