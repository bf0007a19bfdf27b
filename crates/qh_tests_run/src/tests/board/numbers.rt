//! The reduction of the tests: the rising lists of the numbers of blocks.
ghost use Rattle.std.specs.Prelude.{◌≡◌, ◌+◌, ◌*◌, [], ◌∷◌, ◌<◌, ℕ, IfOk};
ghost use Rattle.qh_model.specs.contract.BoardMachine.{InSpan};
ghost use Rattle.qh_tests_run.specs.Rising.{IsRisingListOf};

use qh_board::Spans;
use std::alloc::{AllocError, Global};

/// The value of blocks is the rising list of their numbers. The field is the number of blocks.
#[derive(Drop)]
pub struct Numbers {
    pub blocks: u32,
}

impl Spans for Numbers {
    type Value = Vec<u32>;

    ghost right = { λ _ span list. IsRisingListOf span list.items };
}

/// Returns the list of one number.
pub fn alone(alloc: Global, number: u32) -> Result<Vec<u32>, AllocError>
    ensures { IfOk result (λ list. list.items ≡ number ∷ []) }
{
    let mut list = Vec::new(alloc);
    list.push(number)?;
    Ok(list)
}

/// Returns the lists of the two children of a node merged into the list of the node.
pub fn merged(a: Vec<u32>, b: Vec<u32>) -> Result<Vec<u32>, AllocError>
    ensures { IfOk result (λ list. (blocks : ℕ) (i : ℕ) → 0 < i → i < blocks
        → IsRisingListOf (InSpan blocks (2 * i)) a.items
        → IsRisingListOf (InSpan blocks (2 * i + 1)) b.items → IsRisingListOf (InSpan blocks i) list.items) }
{
    let mut list = a;
    list.extend_from_slice(&b)?;
    list.sort()?;
    Ok(list)
}
