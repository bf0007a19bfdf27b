//! The work of one pass.
ghost use Rattle.std.specs.Prelude.{◌≡◌, ◌+◌, ◌<◌, ℕ, Some, true};
ghost use Rattle.qh_model.specs.contract.Cut.{block_count};
ghost use Rattle.qh_board.specs.declared.view.Mark.TheVariants as marks;
ghost use Rattle.qh_board.specs.contract.Tokens.{IsOf, task_node};
ghost use Rattle.qh_run.specs.steps.Turns.{IsAnswerOf, IsTurnOf, IsWorked, answered};

use crate::gate::Gate;
use crate::job::Job;
use crate::reduction::{Claimed, Reduction};
use qh_board::{Board, Claim, Delivered, Left, Pass, Spans, Task};
use std::alloc::Global;

/// The end of a pass's turn at a block: the pass may claim again, or it gave up.
#[derive(Drop)]
enum TurnEnd<S: Spans> {
    Ended(Pass<S>),
    GaveUp(Left<S>),
}

/// Climbs the tree after a delivery: at each node where the pass arrived second, it combines the values of both
/// children and delivers the parent's value.
fn climb<S: Reduction>(alloc: Global, board: &Board<S>, answer: Delivered<S>) -> TurnEnd<S>
    requires answer { IsAnswerOf S.right board.now answer }
    requires blocks { board.now.setup.blocks ≡ S.count board.now.setup.spans }
    ensures { IsTurnOf board.now (answered answer) result }
{
    let mut answer = answer;
    'up: loop {
        match answer {
            Delivered::Parked(pass) => return TurnEnd::Ended(pass),
            Delivered::Root(pass) => return TurnEnd::Ended(pass),
            Delivered::Both(task, even, odd) => {
                match board.spans().combine(alloc, task.node(), even, odd) {
                    Ok(value) => answer = board.deliver(task, value),
                    Err(_) => return TurnEnd::GaveUp(board.give_up(task)),
                }
            }
        }
    }
}

/// Processes a claimed block: reduces it, delivers its value, and climbs the tree.
fn take_turn<S: Reduction, G: Gate>(
    alloc: Global,
    board: &Board<S>,
    task: Task<S>,
    claimed: Claimed,
    gate: &G,
) -> TurnEnd<S>
    requires board { IsOf board.now task }
    requires blocks { board.now.setup.blocks ≡ S.count board.now.setup.spans }
    requires leaf { (j : ℕ) × (j < board.now.setup.blocks) × (task_node task ≡ board.now.setup.blocks + j) }
    ensures { IsTurnOf board.now task.pass result }
{
    let pass = task.pass();
    let block = task.node() - board.spans().blocks();
    gate.claimed(pass, block);
    match board.spans().reduce(alloc, block, claimed) {
        Ok(value) => {
            let answer = board.deliver(task, value);
            gate.delivered(pass, block);
            climb(alloc, board, answer)
        }
        Err(_) => TurnEnd::GaveUp(board.give_up(task)),
    }
}

/// Runs a pass to its end, for any reduction. Each claim finds more claims than the one before. A pass that is over
/// already leaves at once.
pub(crate) fn run_pass<S: Reduction, G: Gate>(
    alloc: Global,
    board: &Board<S>,
    pass: Pass<S>,
    gate: &G,
) -> Left<S>
    requires board { IsOf board.now pass }
    requires blocks { board.now.setup.blocks ≡ S.count board.now.setup.spans }
    ensures worked { IsWorked board.now result }
    ensures number { result.pass.number ≡ pass.pass.number }
{
    let mut pass = pass;
    if pass.is_over() {
        return board.leave(pass);
    }
    let mut claimed = Claimed::First;
    'claims: loop {
        match board.claim(pass) {
            Claim::Over(over) => return board.leave(over),
            Claim::Block(task) => match take_turn(alloc, board, task, claimed, gate) {
                TurnEnd::Ended(next) => pass = next,
                TurnEnd::GaveUp(left) => return left,
            },
        }
        claimed = Claimed::Later;
    }
}

/// Runs a pass of a board to its end: it claims blocks and delivers their extreme ids, and at each node where it
/// arrived second it takes the extreme ids of what both children have. It leaves once all blocks are claimed, and at
/// once if it knows that already.
///
/// The board's blocks are those of the job's cut.
///
/// The pass gives up if an allocation failed, and at a node whose blocks have at least `qh_block::TELLING` ids of which
/// more are extreme than their [`Allowance`](qh_block::Allowance): half of a block, and less with each level. For its
/// first block, it tests this with the first ids of the block.
pub fn work<'a, G: Gate>(
    alloc: Global,
    board: &Board<Job<'a>>,
    pass: Pass<Job<'a>>,
    gate: &G,
) -> Left<Job<'a>>
    requires board { IsOf board.now pass }
    requires blocks { board.now.setup.blocks ≡ block_count board.now.setup.spans.cut.now }
    ensures board { IsOf board.now result }
    ensures number { result.pass.number ≡ pass.entry.pass.number }

    // A pass that left was answered `Over`, here or before: its last claim found all blocks claimed.
    ensures over { result.pass.mark ≡ Some marks.Left → result.pass.over ≡ true }
    ensures all_claimed { result.pass.mark ≡ Some marks.Left → board.now.setup.blocks < result.pass.claims }
{
    run_pass(alloc, board, pass, gate)
}
