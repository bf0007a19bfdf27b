//! Finders of the points that are equal to an earlier one: the calling thread alone, or several threads.
ghost use Rattle.std.specs.{Prelude.◌≤◌, Prelude.IfOk, Prelude.IfSome, Prelude.length, Thread.IsSync};
ghost use Rattle.qh_model.specs.headline.DistinctIds.{AreDistinctIds};
ghost use Rattle.qh_plane.specs.steps.Repeats.{AreAllRepeats};

use crate::close_points::CloseBox;
use crate::first_ids::{distinct_in_pieces, distinct_in_slots};
use crate::found_ids::FoundIds;
use crate::hash_parts::repeats_by_hash;
use crate::repeats::{repeats_by_sort, repeats_of_all};
use qh_model::{POINT_LIMIT, Point};
use std::alloc::Global;
use std::thread::Threads;

/// The least number of points that keeps a thread busy.
///
/// Two threads sort 32,768 points no faster than one.
const POINTS_FOR_EACH: usize = 32_768;

/// The same for points in a box with few slots, which take a fraction of the time.
const BOX_POINTS_FOR_EACH: usize = 65_536;

/// Finds the points of a list that are equal to an earlier one.
pub trait Finder {
    /// Precondition of this finder.
    ghost ready: { Self → Type 0 };

    /// Returns the distinct ids of points in a box with few slots, rising; `None` if not all points lie in it.
    fn in_box(&self, alloc: Global, close: CloseBox, pts: &[Point]) -> FoundIds
        requires ready { ready self.now }
        requires few { length pts.now ≤ POINT_LIMIT }
        ensures { IfOk result (λ found. IfSome found (λ v. AreDistinctIds pts.now v.items)) }
    {
        distinct_in_slots(alloc, close, pts)
    }

    /// Returns the distinct ids of points that lie close together or in one line, rising; `None` if they do not, or if
    /// another method is faster.
    fn by_slots(&self, alloc: Global, pts: &[Point]) -> FoundIds
        requires ready { ready self.now }
        requires few { length pts.now ≤ POINT_LIMIT }
        ensures { IfOk result (λ found. IfSome found (λ v. AreDistinctIds pts.now v.items)) }
    {
        match CloseBox::around(pts) {
            Some(close) => distinct_in_slots(alloc, close, pts),
            None => Ok(None),
        }
    }

    /// Returns the ids of all points that are equal to an earlier one; `None` if too many have one hash.
    fn repeats(&self, alloc: Global, pts: &[Point]) -> FoundIds
        requires ready { ready self.now }
        requires few { length pts.now ≤ POINT_LIMIT }
        ensures { IfOk result (λ found. IfSome found (λ v. AreAllRepeats pts.now v.items)) };
}

/// A finder that uses the calling thread alone.
#[derive(Clone, Copy, Debug)]
pub struct Alone;

impl Finder for Alone {
    ghost ready = { λ _. Unit {0} };

    fn repeats(&self, alloc: Global, pts: &[Point]) -> FoundIds {
        repeats_of_all(alloc, pts)
    }
}

/// A finder that uses the threads of a runtime to sort all keys.
#[derive(Clone, Copy, Debug)]
pub struct BySort<'a, R>(pub &'a R);

impl<R: Threads + Sync> Finder for BySort<'_, R> {
    ghost ready = { λ _. IsSync R.row };

    fn repeats(&self, alloc: Global, pts: &[Point]) -> FoundIds {
        repeats_by_sort(self.0, alloc, pts)
    }
}

/// A finder that uses a runtime and a greatest number of its threads. These claim pieces of the list, or parts of the
/// hashes, one after the other.
#[derive(Clone, Copy, Debug)]
pub struct InThreads<'a, R> {
    pub rt: &'a R,
    pub threads: usize,
}

impl<R> InThreads<'_, R> {
    /// Returns the number of threads that a list of points keeps busy.
    fn for_points(&self, pts: &[Point]) -> usize
        ensures { result ≤ length pts.now }
    {
        self.threads.min(pts.len() / POINTS_FOR_EACH)
    }
}

impl<R: Threads + Sync> Finder for InThreads<'_, R> {
    ghost ready = { λ _. IsSync R.row };

    fn in_box(&self, alloc: Global, close: CloseBox, pts: &[Point]) -> FoundIds {
        let count = self.threads.min(pts.len() / BOX_POINTS_FOR_EACH);
        if count < 2 {
            return distinct_in_slots(alloc, close, pts);
        }
        distinct_in_pieces(self.rt, alloc, close, pts, count)
    }

    /// Leaves the points to the search by hashes if they keep several threads busy, since one thread scans a table of
    /// slots.
    fn by_slots(&self, alloc: Global, pts: &[Point]) -> FoundIds {
        if self.for_points(pts) < 2 {
            return Alone.by_slots(alloc, pts);
        }
        Ok(None)
    }

    fn repeats(&self, alloc: Global, pts: &[Point]) -> FoundIds {
        let count = self.for_points(pts);
        if count < 2 {
            return repeats_of_all(alloc, pts);
        }
        repeats_by_hash(self.rt, alloc, pts, count)
    }
}
