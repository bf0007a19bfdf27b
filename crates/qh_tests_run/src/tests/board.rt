//! Boards with one pass and with several. Their values are the rising lists of their blocks.
ghost use Rattle.std.specs.Prelude.{◌≡◌};
ghost use Rattle.qh_board.specs.contract.Closings.{closed_setup};

use numbers::Numbers;
use qh_board::{Closed, Mark};
use qh_fixtures::Host;

mod numbers;
mod passes;
mod refusals;
mod rows;
mod runs;

/// Returns the length of a list; `None` if its elements are not the numbers from 0 on.
fn counted(list: &[u32]) -> Option<usize> {
    for (number, place) in list.iter().zip(0u32..) {
        if *number != place {
            return None;
        }
    }
    Some(list.len())
}

/// Returns `counted` of the root's value, if there is one.
fn counted_root(closed: Closed<Numbers>) -> Option<Option<usize>> {
    closed.into_root().map(|root| counted(&root))
}

/// Returns how many passes of a board left.
fn passes_left(closed: &Closed<Numbers>, passes: u32) -> u32
    requires { (closed_setup closed.now).passes ≡ passes }
{
    let mut left = 0u32;
    for pass in 0..passes {
        if closed.mark(pass) == Mark::Left {
            left = left.saturating_add(1);
        }
    }
    left
}

/// The numbers of blocks and of passes, and the numbers of claims and of steps that the passes make.
type Row = (u32, u32, u64, u64);

/// Asserts that all passes left, after the row's claims and steps, and that all blocks are at the root.
///
/// The steps are the events of the passes: claims, arrivals, the root's publication, and the end of each pass.
fn assert_joined(rt: &impl Host, closed: Closed<Numbers>, met: usize, row: Row)
    requires { (closed_setup closed).passes ≡ row.1 }
{
    let (blocks, passes, claims, steps) = row;
    let left = passes_left(&closed, passes);
    let made = (met as u64).saturating_add(left as u64);
    let found = (closed.claims(), made, left, counted_root(closed));
    let want = (claims, steps, passes, Some(Some(blocks as usize)));
    assert_eq!(rt; found, want, "{blocks} blocks");
}
