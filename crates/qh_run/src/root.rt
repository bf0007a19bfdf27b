//! The ids at the root of a tree over blocks.
ghost use Rattle.std.specs.Prelude.{◌≡◌, ◌↔◌, ◌<◌, All, IfOk, IfSome, IsSome, Some, length};
ghost use Rattle.qh_model.specs.contract.BoardMachine.{InSpan};
ghost use Rattle.qh_board.specs.declared.view.Mark.TheVariants as marks;
ghost use Rattle.qh_board.specs.contract.Tokens.{IsRightAt};
ghost use Rattle.qh_run.specs.steps.{Parts.StandsFor, Turns.IsWorked};

use crate::blocks::Blocks;
use crate::gate::Gate;
use crate::passes::run_passes;
use crate::reduction::Reduction;
use qh_board::{Board, BoardError, Left, Spans};
use qh_model::Id;
use std::alloc::Global;
use std::thread::Threads;

/// Closes a board whose passes have all ended, and returns the value of its root.
///
/// There is a value exactly if no pass gave up: a pass leaves only after all blocks are claimed.
fn root_of<S: Spans>(board: Board<S>, lefts: Vec<Left<S>>) -> Option<S::Value>
    requires some { 0 < length lefts.items }
    requires all { length lefts.items ≡ board.setup.passes }
    requires worked { All (IsWorked board) lefts.items }
    ensures root { IsSome result ↔ All (λ l. l.pass.mark ≡ Some marks.Left) lefts.items }
    ensures right { IfSome result (IsRightAt S.right board 1) }
{
    board.close(lefts).into_root()
}

/// Makes a board for the blocks of the spans and runs its passes in parallel. Returns the value that is right for all
/// blocks, or `None` if a pass gave up.
fn reduced<S: Reduction, R: Threads + Sync, G: Gate>(
    rt: &R,
    alloc: Global,
    spans: S,
    passes: u32,
    gate: &G,
) -> Result<Option<S::Value>, BoardError>
    requires { 0 < passes }
    ensures { IfOk result (λ r. IfSome r (S.right spans (InSpan (S.count spans) 1))) }
{
    let blocks = spans.blocks();
    let (board, passes) = Board::new(alloc, spans, blocks, passes)?;
    let lefts = run_passes(rt, alloc, &board, passes, gate)?;
    Ok(root_of(board, lefts))
}

/// Returns the extreme ids of a set, as the workers find them in its blocks. Returns `None` if a worker gave up, or if
/// an allocation for the board or a thread failed. There are no more workers than blocks.
pub(crate) fn root_ids<R: Threads + Sync, G: Gate>(
    rt: &R,
    alloc: Global,
    set: Blocks,
    workers: u32,
    gate: &G,
) -> Option<Vec<Id>>
    requires { 0 < workers }
    ensures some { IfSome result (λ ids. 0 < length ids.items) }
    ensures stand { IfSome result (λ ids. StandsFor set.entry.pts.now set.entry.ids.now ids.items) }
{
    let passes = workers.min(set.cut.blocks());
    match reduced(rt, alloc, set, passes, gate) {
        Ok(Some(root)) => Some(root.ids),
        _ => None,
    }
}
