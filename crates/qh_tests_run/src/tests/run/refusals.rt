//! Runs during which one allocation fails: the hull is right, or the call is out of memory and returns the right hull
//! when it is repeated. A worker whose allocation fails gives up. `scripts/trials/refusals.py` makes each allocation
//! fail in turn.
ghost use Rattle.std.specs.Prelude.{◌<◌, ◌≤◌, IfOk, length};
ghost use Rattle.qh_model.specs.headline.DistinctIds.{AreDistinctIds};

use super::{OCTAHEDRON_HULL, hull_by, job, numbers_of, worked_by_one};
use qh_board::{BoardError, Mark};
use qh_fixtures::ids::are;
use qh_fixtures::points::{cube, octahedron, paraboloid, square};
use qh_fixtures::{Host, again};
use qh_model::{Body, Cut, CutError, Id, Memory, POINT_LIMIT, Point};
use qh_plane::distinct;
use qh_run::{Gate, NoGate, RunError, run_hull};
use std::alloc::{AllocError, Global};
use std::sync::atomic::{AtomicU64, Ordering};
use std::test::Fail;

/// The hulls of the square and of the cube, as `numbers_of` returns them.
const SQUARE_HULL: [usize; 14] = [5, 5, 2, 4, 4, 0, 1, 2, 3, 4, 0, 1, 2, 3];

const CUBE_HULL: [usize; 43] = [
    8, 8, 3, 12, 8, 0, 1, 2, 3, 4, 5, 6, 7, 4, 0, 1, 3, 2, 4, 0, 2, 6, 4, 4, 0, 4, 5, 1, 4, 1, 5,
    7, 3, 4, 2, 3, 7, 6, 4, 4, 6, 7, 5,
];

/// Returns the even cut. Repeats the call if an allocation failed.
fn cut_again(alloc: Global, m: u32, size: u32) -> Result<Cut, CutError>
    requires some { 0 < m }
    requires few { m ≤ POINT_LIMIT }
{
    again!(Cut::even(alloc, m, size), CutError::Memory)
}

/// Returns true if the hull of a list of points by the even cut of its positions has these numbers. Repeats each call
/// if an allocation failed.
fn comes_out_right(
    rt: &impl Host,
    points: &[Point],
    size: u32,
    workers: u32,
    want: &[usize],
) -> Result<bool, Fail>
    requires some { 0 < length points.now }
    requires few { length points.now ≤ POINT_LIMIT }
{
    let cut = cut_again(rt.alloc(), points.len() as u32, size)?;
    let hull = again!(hull_by(rt, points, &cut, workers), RunError::Memory)?;
    let hull = hull.ok_or("another cut")?;
    let numbers = again!(numbers_of(rt.alloc(), &hull), AllocError)?;
    Ok(numbers.as_slice() == want)
}

#[test]
fn tries_again(rt: HostRuntime) -> Result<(), Fail> {
    let (square, cube, octahedron) = (square(), cube(0, 1), octahedron());
    for workers in [1, 2, 7] {
        let right = comes_out_right(&rt, &square, 2, workers, &SQUARE_HULL)?
            && comes_out_right(&rt, &cube, 3, workers, &CUBE_HULL)?
            && comes_out_right(&rt, &octahedron, 3, workers, &OCTAHEDRON_HULL)?;
        assert!(rt; right, "{workers} workers");
    }
    Ok(())
}

/// The result of one pass over all blocks of a job.
#[derive(Clone, Copy, Debug, PartialEq, Eq, Drop)]
enum Found {
    /// The right list.
    Right,
    /// A wrong list, a list although the pass gave up, or no list although it left.
    Wrong,
    /// The pass gave up, and there is no list.
    GaveUp,
}

/// Returns the result of one pass over the octahedron in blocks of 3.
fn found_by_one(alloc: Global, points: &[Point], ids: &[Id], cut: &Cut) -> Result<Found, BoardError>
    requires { AreDistinctIds points.now ids.now }
{
    let Some(job) = job(points, ids, cut) else {
        return Ok(Found::Wrong);
    };
    let closed = worked_by_one(alloc, job)?;
    let mark = closed.mark(0);
    Ok(match closed.into_root() {
        None if mark == Mark::GaveUp => Found::GaveUp,
        Some(root) if mark == Mark::Left && are(&root.ids, &[0, 2, 3, 5, 6, 9]) => Found::Right,
        _ => Found::Wrong,
    })
}

#[test]
fn a_worker_gives_up(rt: HostRuntime) -> Result<(), Fail> {
    let alloc = rt.alloc();
    let points = octahedron();
    let ids = ids_again(&rt, &points)?;
    let cut = cut_again(alloc, 18, 3)?;
    let found = match found_by_one(alloc, &points, &ids, &cut) {
        Err(BoardError::Memory) | Ok(Found::GaveUp) => found_by_one(alloc, &points, &ids, &cut)?,
        found => found?,
    };
    assert_eq!(rt; found, Found::Right);
    Ok(())
}

/// Returns the distinct ids of some points. Repeats the call if an allocation failed.
fn ids_again(rt: &impl Host, points: &[Point]) -> Result<Vec<Id>, Memory>
    requires few { length points.now ≤ POINT_LIMIT }
    ensures { IfOk result (λ ids. AreDistinctIds points.now ids.items) }
{
    again!(distinct(rt, rt.alloc(), points), Memory)
}

/// The number of calls of `finish`, and the number of ids that the last call was given.
type Counts = (u64, u64);

/// A gate that counts the calls of its `finish`, and the ids of the last one.
#[derive(Drop)]
struct Finishes {
    calls: AtomicU64,
    ids: AtomicU64,
}

impl Finishes {
    /// Creates a gate that has not been called yet.
    fn new() -> Finishes {
        let (calls, ids) = (AtomicU64::new(0), AtomicU64::new(0));
        Finishes { calls, ids }
    }

    fn counts(&self) -> Counts {
        let calls = self.calls.load(Ordering::SeqCst);
        (calls, self.ids.load(Ordering::SeqCst))
    }
}

impl Gate for Finishes {
    fn finish(&self, alloc: Global, pts: &[Point], ids: &[Id]) -> Result<Body, Memory> {
        self.calls.fetch_add(1, Ordering::SeqCst);
        self.ids.store(ids.len() as u64, Ordering::SeqCst);
        NoGate.finish(alloc, pts, ids)
    }
}

/// Returns how often a run over a cut of some points calls the gate's `finish`, and with how many ids at last, whether
/// the run succeeds or not.
fn finishes_of(rt: &impl Host, points: &[Point], cut: &Cut, workers: u32) -> Result<Counts, Fail> {
    if points.len() > POINT_LIMIT as usize {
        return Err("too many points".into());
    }
    let ids = ids_again(rt, points)?;
    let (_, end) = cut.block(cut.blocks() - 1);
    if end as usize != ids.len() {
        return Err("another cut".into());
    }
    let gate = Finishes::new();
    let _ = run_hull(rt, rt.alloc(), points, &ids, cut, workers, &gate);
    Ok(gate.counts())
}

#[test]
fn finishes_once(rt: HostRuntime) -> Result<(), Fail> {
    let cut = cut_again(rt.alloc(), 18, 3)?;
    for workers in [1, 2, 7] {
        let (calls, _) = finishes_of(&rt, &octahedron(), &cut, workers)?;
        assert_eq!(rt; calls, 1, "{workers} workers");
    }
    Ok(())
}

#[test]
fn finishes_with_all_ids_if_a_pass_gives_up(rt: HostRuntime) -> Result<(), Fail> {
    let points = again!(paraboloid(rt.alloc(), 64, 32), AllocError)?;
    let cut = cut_again(rt.alloc(), 2048, 512)?;
    for workers in [1, 2, 7] {
        let found = finishes_of(&rt, &points, &cut, workers)?;
        assert_eq!(rt; found, (1, 2048), "{workers} workers");
    }
    Ok(())
}
