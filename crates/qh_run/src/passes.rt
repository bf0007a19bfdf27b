//! Passes in parallel.
ghost use Rattle.std.specs.Prelude.{◌≡◌, length, IfOk, All};
ghost use Rattle.qh_board.specs.contract.Tokens.{IsOf};
ghost use Rattle.qh_run.specs.steps.Turns.{IsWorked};

use crate::gate::Gate;
use crate::reduction::Reduction;
use crate::worker::run_pass;
use qh_board::{Board, Left, Pass};
use std::alloc::{AllocError, Global};
use std::thread::{Threads, join};

/// Runs each pass of a list to its end: the two halves of the list in parallel, in threads of `rt`, and recursively the
/// halves of each, down to one pass.
pub(crate) fn run_passes<S: Reduction, R: Threads + Sync, G: Gate>(
    rt: &R,
    alloc: Global,
    board: &Board<S>,
    passes: Vec<Pass<S>>,
    gate: &G,
) -> Result<Vec<Left<S>>, AllocError>
    requires board { All (IsOf board.now) passes.items }
    requires blocks { board.now.setup.blocks ≡ S.count board.now.setup.spans }
    ensures { IfOk result (λ v. (length v.items ≡ length passes.items) × All (IsWorked board.now) v.items) }
{
    let mut passes = passes;
    if passes.len() < 2 {
        let mut lefts = Vec::with_capacity(alloc, 1)?;
        if let Some(pass) = passes.pop() {
            lefts.push_reserved(run_pass(alloc, board, pass, gate));
        }
        return Ok(lefts);
    }
    let half = passes.len() / 2;
    let others = passes.split_off(half)?;
    let (one, two) = join(
        rt,
        || -> Result<Vec<Left<S>>, AllocError>
            requires { All (IsOf board.now) passes.items × (board.now.setup.blocks ≡ S.count board.now.setup.spans) }
            ensures { IfOk result (λ v. (length v.items ≡ length passes.items) × All (IsWorked board.entry.now) v.items) }
        { run_passes(rt, alloc, board, passes, gate) },
        || -> Result<Vec<Left<S>>, AllocError>
            requires { All (IsOf board.now) others.items × (board.now.setup.blocks ≡ S.count board.now.setup.spans) }
            ensures { IfOk result (λ v. (length v.items ≡ length others.items) × All (IsWorked board.entry.now) v.items) }
        { run_passes(rt, alloc, board, others, gate) },
    );
    let mut lefts = one?;
    let mut more = two?;
    lefts.append(&mut more)?;
    Ok(lefts)
}
