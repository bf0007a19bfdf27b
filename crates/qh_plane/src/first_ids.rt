//! The distinct points of a list whose places have separate slots: the first point in a slot represents its place, so
//! nothing is sorted.
//!
//! Several threads scan pieces of the list, each with its own slots. A distinct point is the first of its place in its
//! piece, so only these are scanned again.
//!
//! The proofs do not require that different places have different slots: the attempt is given up if a point falls into
//! the slot of another place.
ghost use Rattle.std.specs.Prelude.{◌≡◌, ◌≤◌, ◌<◌, ◌+◌, ◌*◌, true, IfOk, IfSome, length};
ghost use Rattle.qh_model.specs.headline.DistinctIds.{AreDistinctIds};
ghost use Rattle.qh_plane.specs.steps.FirstIds.{AreSeen, AreFirstIds, ArePieces};

use crate::close_points::{CloseBox, same_point};
use crate::found_ids::{FoundIds, told};
use qh_model::{Id, POINT_LIMIT, Point};
use qh_threads::{PARTS_FOR_EACH, map_chunks};
use std::alloc::{AllocError, Global};
use std::thread::Threads;

/// The content of an empty slot.
const NO_ID: u32 = 4294967295;

/// The least number of points of a piece for each slot. In a smaller piece too many points are the first of their
/// places.
const POINTS_FOR_EACH_SLOT: usize = 2;

/// The slots of a box, and the first point in each.
#[derive(Drop)]
struct FirstIds {
    close: CloseBox,
    /// The id of the first point of each slot, or `NO_ID`.
    slots: Vec<u32>,
    /// The ids in the slots, rising.
    ids: Vec<Id>,
}

impl FirstIds {
    /// Returns empty slots.
    fn new(alloc: Global, close: CloseBox, pts: &[Point]) -> Result<FirstIds, AllocError>
        ensures { IfOk result (λ v. AreSeen pts.now v 0) }
    {
        let slots = vec![in alloc; NO_ID; close.slots as usize]?;
        let ids = Vec::with_capacity(alloc, pts.len().min(slots.len()))?;
        Ok(FirstIds { close, slots, ids })
    }

    /// Adds a point. Returns false if it has no slot, or falls into the slot of another place.
    fn look(&mut self, pts: &[Point], number: usize) -> Result<bool, AllocError>
        requires few { length pts.now ≤ POINT_LIMIT }
        requires within { number < length pts.now }
        requires seen { AreSeen pts.now self.old number }
        ensures { IfOk result (λ fits. fits ≡ true → AreSeen pts.now self.new (number + 1)) }
    {
        let slot = self.close.slot(pts[number]) as usize;
        if slot >= self.slots.len() {
            return Ok(false);
        }
        let first = self.slots[slot];
        if first != NO_ID {
            return Ok(same_point(pts[first as usize], pts[number]));
        }
        self.slots[slot] = number as u32;
        self.ids.push(Id::new(number as u32))?;
        Ok(true)
    }

    /// Adds the points of a piece, and lists those that are the first of their places in it. Returns false as
    /// [`look`](FirstIds::look) does.
    fn look_at_piece(
        &mut self,
        pts: &[Point],
        begin: usize,
        end: usize,
        firsts: &[Id],
    ) -> Result<bool, AllocError>
        requires few { length pts.now ≤ POINT_LIMIT }
        requires order { begin ≤ end }
        requires within { end ≤ length pts.now }
        requires firsts { AreFirstIds pts.now begin end firsts.now }
        requires seen { AreSeen pts.now self.old begin }
        ensures { IfOk result (λ fits. fits ≡ true → AreSeen pts.now self.new end) }
    {
        for first in firsts {
            if !self.look(pts, begin + first.index())? {
                return Ok(false);
            }
        }
        Ok(true)
    }
}

/// Returns the distinct ids of points, rising; `None` if different places fall into one slot, or a point has no slot.
pub fn distinct_in_slots(alloc: Global, close: CloseBox, pts: &[Point]) -> FoundIds
    requires { length pts.now ≤ POINT_LIMIT }
    ensures { IfOk result (λ found. IfSome found (λ v. AreDistinctIds pts.now v.items)) }
{
    let mut firsts = FirstIds::new(alloc, close, pts)?;
    for number in 0..pts.len() {
        if !firsts.look(pts, number)? {
            return Ok(None);
        }
    }
    Ok(Some(firsts.ids))
}

/// Returns the distinct ids of points, given the distinct ids of their pieces of one size.
fn distinct_of_pieces(
    alloc: Global,
    close: CloseBox,
    pts: &[Point],
    size: usize,
    pieces: &[FoundIds],
) -> FoundIds
    requires few { length pts.now ≤ POINT_LIMIT }
    requires all { length pts.now ≤ length pieces.now * size }
    requires pieces { ArePieces pts.now size pieces.now }
    ensures { IfOk result (λ found. IfSome found (λ v. AreDistinctIds pts.now v.items)) }
{
    let mut firsts = FirstIds::new(alloc, close, pts)?;
    let mut begin: usize = 0;
    for piece in pieces {
        let Some(ids) = told(piece)? else {
            return Ok(None);
        };
        let end = begin.saturating_add(size).min(pts.len());
        if !firsts.look_at_piece(pts, begin, end, ids)? {
            return Ok(None);
        }
        begin = end;
    }
    Ok(Some(firsts.ids))
}

/// Returns the number of pieces into which a list of `count` points is cut.
fn piece_count(close: CloseBox, count: usize, threads: usize) -> usize {
    let least = (close.slots as usize)
        .saturating_mul(POINTS_FOR_EACH_SLOT)
        .max(1);
    threads.saturating_mul(PARTS_FOR_EACH).min(count / least)
}

/// Returns the distinct ids of points as [`distinct_in_slots`] does, with at most `threads` threads.
pub fn distinct_in_pieces<R: Threads>(
    rt: &R,
    alloc: Global,
    close: CloseBox,
    pts: &[Point],
    threads: usize,
) -> FoundIds
    requires { length pts.now ≤ POINT_LIMIT }
    ensures { IfOk result (λ found. IfSome found (λ v. AreDistinctIds pts.now v.items)) }
{
    let count = piece_count(close, pts.len(), threads);
    if count < 2 {
        return distinct_in_slots(alloc, close, pts);
    }
    let size = pts.len() / count + 1;
    let pieces = map_chunks(
        rt,
        alloc,
        threads,
        pts,
        size,
        &move |_start: usize, piece: &[Point]| -> FoundIds
            requires { length piece.now ≤ POINT_LIMIT }
            ensures { IfOk result (λ found. IfSome found (λ v. AreDistinctIds piece.now v.items)) }
        { distinct_in_slots(alloc, close, piece) },
    )?;
    distinct_of_pieces(alloc, close, pts, size, &pieces)
}
