//! Rows of points and their hulls, by several cuts and numbers of workers.
ghost use Rattle.std.specs.Prelude.{◌≡◌, IfOk};
ghost use Rattle.qh_board.specs.contract.Closings.{closed_setup};
ghost use Rattle.qh_model.specs.headline.DistinctIds.{AreDistinctIds};

use qh_board::{Board, BoardError, Closed, Mark};
use qh_fixtures::points::{doubled_cube, grid, octahedron, paraboloid};
use qh_fixtures::{Host, table};
use qh_model::{Cut, Hull, Id, POINT_LIMIT, Point};
use qh_plane::distinct;
use qh_run::{Job, NoGate, RunError, run_hull, work};
use std::alloc::{AllocError, Global};
use std::test::Fail;

mod refusals;

/// The hull of the octahedron, as `numbers_of` returns it.
const OCTAHEDRON_HULL: [usize; 43] = [
    18, 18, 3, 12, 6, 0, 2, 3, 5, 6, 9, 3, 0, 2, 6, 3, 0, 5, 9, 3, 0, 6, 5, 3, 0, 9, 2, 3, 2, 3, 6,
    3, 2, 9, 3, 3, 3, 5, 6, 3, 3, 9, 5,
];

/// The hull of the corners of a cube, each given twice, as `numbers_of` returns it.
const CUBE_HULL: [usize; 43] = [
    16, 8, 3, 12, 8, 0, 2, 4, 6, 8, 10, 12, 14, 4, 0, 2, 6, 4, 4, 0, 4, 12, 8, 4, 0, 8, 10, 2, 4,
    2, 10, 14, 6, 4, 4, 6, 14, 12, 4, 8, 12, 14, 10,
];

/// Returns cuts of more than 6 positions: even ones, the last of which may have one block, and an uneven one.
fn cuts_of(alloc: Global, count: u32) -> Result<Vec<Cut>, Fail> {
    if count <= 6 || count > POINT_LIMIT {
        return Err("a count out of range".into());
    }
    let mut cuts = Vec::new(alloc);
    for size in [1, 3, 4, 18] {
        cuts.push(Cut::even(alloc, count, size)?)?;
    }
    cuts.push(Cut::from_bounds(Vec::from_slice(alloc, &[0, 1, 6, count])?)?)?;
    Ok(cuts)
}

/// A hull; `None` if the cut has a different number of positions.
type Found = Option<Hull>;

/// Returns the hull of a list of points by a cut of its distinct ids.
fn hull_by(rt: &impl Host, points: &[Point], cut: &Cut, workers: u32) -> Result<Found, RunError> {
    if points.len() > POINT_LIMIT as usize {
        return Ok(None);
    }
    let ids = distinct(rt, rt.alloc(), points)?;
    let (_, end) = cut.block(cut.blocks() - 1);
    if end as usize != ids.len() {
        return Ok(None);
    }
    let hull = run_hull(rt, rt.alloc(), points, &ids, cut, workers, &NoGate)?;
    Ok(Some(hull))
}

/// Appends the number of ids, and the ids.
fn push_ids(numbers: &mut Vec<usize>, ids: &[Id]) -> Result<(), AllocError> {
    numbers.push(ids.len())?;
    for id in ids {
        numbers.push(id.index())?;
    }
    Ok(())
}

/// Returns a hull as numbers: the numbers of points and of distinct points, the dimension, the number of edges, then
/// the extreme ids and the ids of each face, each list after its length.
fn numbers_of(alloc: Global, hull: &Hull) -> Result<Vec<usize>, AllocError> {
    let mut numbers = Vec::new(alloc);
    numbers.push(hull.given as usize)?;
    numbers.push(hull.distinct as usize)?;
    numbers.push(hull.body.dim as usize)?;
    numbers.push(hull.body.edges as usize)?;
    push_ids(&mut numbers, &hull.body.extremes)?;
    for polygon in &hull.body.polygons {
        push_ids(&mut numbers, polygon.ids())?;
    }
    Ok(numbers)
}

/// Returns the board of a job whose only pass was run to its end.
fn worked_by_one<'a>(alloc: Global, job: Job<'a>) -> Result<Closed<Job<'a>>, BoardError>
    ensures { IfOk result (λ c. (closed_setup c).passes ≡ 1) }
{
    let blocks = job.cut.blocks();
    let (board, mut passes) = Board::new(alloc, job, blocks, 1)?;
    let mut lefts = Vec::with_capacity(alloc, 1)?;
    if let Some(pass) = passes.pop() {
        lefts.push_reserved(work(alloc, &board, pass, &NoGate));
    }
    Ok(board.close(lefts))
}

/// Returns the points, their distinct ids and a cut as a job; `None` if the cut has another number of positions.
fn job<'a>(pts: &'a [Point], ids: &'a [Id], cut: &'a Cut) -> Option<Job<'a>>
    requires { AreDistinctIds pts.now ids.now }
{
    let (_, end) = cut.block(cut.blocks() - 1);
    if end as usize != ids.len() {
        return None;
    }
    Some(Job { pts, ids, cut })
}

/// Returns the result of one pass over all blocks: the number of claims, the mark, and the ids at the root.
fn reduced_by_one<'a>(alloc: Global, job: Job<'a>) -> Result<(u64, Mark, Vec<usize>), Fail> {
    let closed = worked_by_one(alloc, job)?;
    let (claims, mark) = (closed.claims(), closed.mark(0));
    let root = closed.into_root().ok_or("no root")?;
    let mut numbers = Vec::new(alloc);
    push_ids(&mut numbers, &root.ids)?;
    Ok((claims, mark, numbers))
}

#[test]
fn one_pass_reduces_all_blocks(rt: HostRuntime) -> Result<(), Fail> {
    let points = octahedron();
    let ids = distinct(&rt, rt.alloc(), &points)?;
    let cut = Cut::even(rt.alloc(), 18, 3)?;
    let job = job(&points, &ids, &cut).ok_or("another cut")?;
    let (claims, mark, root) = reduced_by_one(rt.alloc(), job)?;
    let want = (7, Mark::Left, [6, 0, 2, 3, 5, 6, 9].as_slice());
    assert_eq!(rt; (claims, mark, root.as_slice()), want);
    Ok(())
}

/// Returns how one pass ends on 2,048 points in blocks of one size: the number of claims, and the mark.
fn end_of(rt: &impl Host, points: &[Point], size: u32) -> Result<(u64, Mark), Fail> {
    let alloc = rt.alloc();
    if points.len() > POINT_LIMIT as usize {
        return Err("too many points".into());
    }
    let ids = distinct(rt, alloc, points)?;
    let cut = Cut::even(alloc, 2048, size)?;
    let job = job(points, &ids, &cut).ok_or("another cut")?;
    let closed = worked_by_one(alloc, job)?;
    Ok((closed.claims(), closed.mark(0)))
}

/// Asserts how one pass ends on 2,048 points in blocks of each size.
fn assert_ends(rt: &impl Host, points: &[Point], rows: &[(u32, u64, Mark)]) -> Result<(), Fail> {
    for (size, claims, mark) in rows {
        let end = end_of(rt, points, *size)?;
        assert_eq!(rt; end, (*claims, *mark), "blocks of {size}");
    }
    Ok(())
}

/// Blocks whose first ids show that the tree does not pay, a block whose ids all have to be tested, then blocks for
/// which the first two joined ones show it, and the first four.
const PARABOLOID_ENDS: [(u32, u64, Mark); 4] = table![
    (2048, 1, Mark::GaveUp); (1024, 1, Mark::GaveUp); (512, 2, Mark::GaveUp); (256, 4, Mark::GaveUp);
];

/// A single block is processed like any other.
const LATTICE_ENDS: [(u32, u64, Mark); 3] =
    table![(2048, 2, Mark::Left); (1024, 3, Mark::Left); (512, 5, Mark::Left);];

#[test]
fn gives_up_where_the_tree_does_not_pay(rt: HostRuntime) -> Result<(), Fail> {
    assert_ends(&rt, &paraboloid(rt.alloc(), 64, 32)?, &PARABOLOID_ENDS)?;
    assert_ends(&rt, &grid(rt.alloc(), [16, 16, 8])?, &LATTICE_ENDS)
}

/// Asserts the hull of a list of points, `count` of which are distinct, by each cut and for every number of workers.
fn assert_hull(rt: &impl Host, points: &[Point], count: u32, want: &[usize]) -> Result<(), Fail> {
    for cut in &cuts_of(rt.alloc(), count)? {
        for workers in [1, 2, 7, 64] {
            let hull = hull_by(rt, points, cut, workers)?.ok_or("another cut")?;
            let numbers = numbers_of(rt.alloc(), &hull)?;
            assert_eq!(rt; numbers.as_slice(), want, "{workers} workers, {cut:?}");
        }
    }
    Ok(())
}

#[test]
fn has_one_hull_of_an_octahedron(rt: HostRuntime) -> Result<(), Fail> {
    assert_hull(&rt, &octahedron(), 18, &OCTAHEDRON_HULL)
}

#[test]
fn has_one_hull_of_a_doubled_cube(rt: HostRuntime) -> Result<(), Fail> {
    assert_hull(&rt, &doubled_cube(rt.alloc())?, 8, &CUBE_HULL)
}

#[test]
fn refuses_no_workers_and_too_many(rt: HostRuntime) -> Result<(), Fail> {
    let points = octahedron();
    for cut in &cuts_of(rt.alloc(), 18)? {
        for workers in [0, 65, 4294967295] {
            let refused = hull_by(&rt, &points, cut, workers).err();
            assert_eq!(rt; refused, Some(RunError::BadWorkers), "{workers}, {cut:?}");
        }
    }
    Ok(())
}
