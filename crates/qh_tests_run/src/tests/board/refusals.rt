//! Boards during whose calls one allocation fails: their passes have the expected events, or the calls are out of
//! memory and succeed when they are repeated. `scripts/trials/refusals.py` makes each allocation fail in turn.
ghost use Rattle.std.specs.Prelude.{◌≡◌, IfOk};
ghost use Rattle.qh_board.specs.contract.Closings.{closed_setup};

use super::assert_joined;
use super::numbers::Numbers;
use super::passes::{Log, run};
use qh_board::{BoardError, Closed};
use qh_fixtures::again;
use std::alloc::Global;
use std::test::Fail;

/// Returns a board all of whose passes were run to their ends. Repeats the calls if an allocation failed.
fn run_again(alloc: Global, blocks: u32, passes: u32) -> Result<(Closed<Numbers>, Log), BoardError>
    ensures { IfOk result (λ r. (closed_setup r.0).passes ≡ passes) }
{
    again!(run(alloc, blocks, passes), BoardError::Memory)
}

#[test]
fn tries_again(rt: HostRuntime) -> Result<(), Fail> {
    for row in [(7, 2, 9, 24), (1, 64, 65, 130), (6, 1, 7, 19)] {
        let (blocks, passes, _, _) = row;
        let (closed, log) = run_again(rt.alloc(), blocks, passes)?;
        assert_joined(&rt, closed, log.met.len(), row);
    }
    Ok(())
}
