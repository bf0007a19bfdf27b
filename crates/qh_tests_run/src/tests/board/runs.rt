//! Many boards, whose passes run in parallel, some of which give up.
ghost use Rattle.std.specs.Prelude.{◌≡◌, ◌<◌, ◌++◌, IfOk, All, false, length};
ghost use Rattle.qh_board.specs.contract.{Closings.closed_setup, Tokens.IsOf};

use super::numbers::Numbers;
use super::passes::{Log, Met, work_but};
use super::{counted, counted_root, passes_left};
use qh_board::{Board, BoardError, Closed, Left, Pass};
use qh_fixtures::Host;
use std::alloc::{AllocError, Global};
use std::test::Fail;
use std::thread::{Threads, join};

/// The number of boards that are run; `scripts/trials/board_runs.sh` runs more.
const RUNS: u32 = 200;

/// Passes that have ended, and their events.
#[derive(Drop)]
struct Ended {
    lefts: Vec<Left<Numbers>>,
    met: Vec<Met>,
}

/// Runs the last pass of a list, if there is one, to its end.
fn work_last(
    alloc: Global,
    board: &Board<Numbers>,
    passes: Vec<Pass<Numbers>>,
    gives_up_at: Option<u32>,
) -> Result<Ended, AllocError>
    requires few { length passes.items < 2 }
    requires board { All (IsOf board.now) passes.items }
    requires going { All (λ p. p.pass.over ≡ false) passes.items }
    requires blocks { board.now.setup.spans.blocks ≡ board.now.setup.blocks }
    ensures { IfOk result (λ e. (length e.lefts.items ≡ length passes.items) × All (IsOf board.now) e.lefts.items) }
{
    let mut passes = passes;
    let mut lefts = Vec::with_capacity(alloc, 1)?;
    let mut log = Log::new(alloc);
    if let Some(pass) = passes.pop() {
        lefts.push_reserved(work_but(alloc, board, pass, gives_up_at, &mut log)?);
    }
    let Log { met, .. } = log;
    Ok(Ended { lefts, met })
}

/// Returns the passes of both arguments, and their events.
fn gathered(one: Ended, two: Ended) -> Result<Ended, AllocError>
    ensures { IfOk result (λ e. e.lefts.items ≡ one.lefts.items ++ two.lefts.items) }
{
    let (mut all, mut more) = (one, two);
    all.lefts.append(&mut more.lefts)?;
    all.met.append(&mut more.met)?;
    Ok(all)
}

/// Runs the passes to their ends, the halves of the list in parallel, and recursively the halves of each.
fn work_side_by_side<R: Threads + Sync>(
    rt: &R,
    alloc: Global,
    board: &Board<Numbers>,
    passes: Vec<Pass<Numbers>>,
    gives_up_at: Option<u32>,
) -> Result<Ended, AllocError>
    requires board { All (IsOf board.now) passes.items }
    requires going { All (λ p. p.pass.over ≡ false) passes.items }
    requires blocks { board.now.setup.spans.blocks ≡ board.now.setup.blocks }
    ensures { IfOk result (λ e. (length e.lefts.items ≡ length passes.items) × All (IsOf board.now) e.lefts.items) }
{
    let mut passes = passes;
    if passes.len() < 2 {
        return work_last(alloc, board, passes, gives_up_at);
    }
    let half = passes.len() / 2;
    let others = passes.split_off(half)?;
    let (one, two) = join(
        rt,
        || -> Result<Ended, AllocError>
            requires { All (IsOf board.now) passes.items × All (λ p. p.pass.over ≡ false) passes.items
                × (board.now.setup.spans.blocks ≡ board.now.setup.blocks) }
            ensures { IfOk result (λ e. (length e.lefts.items ≡ length passes.items) × All (IsOf board.entry.now) e.lefts.items) }
        { work_side_by_side(rt, alloc, board, passes, gives_up_at) },
        || -> Result<Ended, AllocError>
            requires { All (IsOf board.now) others.items × All (λ p. p.pass.over ≡ false) others.items
                × (board.now.setup.spans.blocks ≡ board.now.setup.blocks) }
            ensures { IfOk result (λ e. (length e.lefts.items ≡ length others.items) × All (IsOf board.entry.now) e.lefts.items) }
        { work_side_by_side(rt, alloc, board, others, gives_up_at) },
    );
    gathered(one?, two?)
}

/// Returns a board whose passes were run to their ends in parallel, and their events.
pub fn run_side_by_side(
    rt: &impl Host,
    alloc: Global,
    blocks: u32,
    passes: u32,
    gives_up_at: Option<u32>,
) -> Result<(Closed<Numbers>, Vec<Met>), BoardError>
    ensures { IfOk result (λ r. (closed_setup r.0).passes ≡ passes) }
{
    let (board, all) = Board::new(alloc, Numbers { blocks }, blocks, passes)?;
    let ended = work_side_by_side(rt, alloc, &board, all, gives_up_at)?;
    Ok((board.close(ended.lefts), ended.met))
}

/// Returns the blocks that passes got, rising.
fn blocks_got(alloc: Global, met: &[Met]) -> Result<Vec<u32>, AllocError> {
    let mut blocks = Vec::new(alloc);
    for met in met {
        if let Met::Block(block) = *met {
            blocks.push(block)?;
        }
    }
    blocks.sort()?;
    Ok(blocks)
}

/// Asserts that no block was got twice. Asserts that, if all blocks were claimed and every pass left, all were got and
/// one root has them all, and else that there is no root. The passes got the blocks `got` and published `roots` roots.
fn assert_root(
    rt: &impl Host,
    closed: Closed<Numbers>,
    got: &[u32],
    roots: usize,
    blocks: u32,
    passes: u32,
)
    requires { (closed_setup closed).passes ≡ passes }
{
    let is_whole = passes_left(&closed, passes) == passes && closed.claims() >= blocks as u64;
    let (all, got) = (Some(blocks as usize), counted(got));
    let want = (true, usize::from(is_whole), is_whole.then_some(all));
    let is_once = got.is_some() && (!is_whole || got == all);
    let found = (is_once, roots, counted_root(closed));
    assert_eq!(rt; found, want, "{blocks} blocks");
}

/// Makes the assertions of [`assert_root`] for a board whose passes run in parallel; one gives up at the block `end`.
fn assert_run(rt: &impl Host, blocks: u32, passes: u32, end: Option<u32>) -> Result<(), Fail> {
    let (closed, met) = run_side_by_side(rt, rt.alloc(), blocks, passes, end)?;
    let got = blocks_got(rt.alloc(), &met)?;
    let roots = met.iter().filter(|met| **met == Met::Root).count();
    assert_root(rt, closed, &got, roots, blocks, passes);
    Ok(())
}

#[test]
fn each_block_is_got_once_and_the_root_is_as_close_says(rt: HostRuntime) -> Result<(), Fail> {
    for run in 0..RUNS {
        let gives_up_at = if run % 3 == 0 { Some(run % 97) } else { None };
        assert_run(&rt, 7 + run % 58, 2 + run % 7, gives_up_at)?;
    }
    Ok(())
}
