//! Cuts of a list into blocks.
ghost use Rattle.std.specs.Prelude.{◌≡◌, ◌≢◌, ◌↔◌, ◌+◌, ◌≤◌, ◌<◌, IfOk, IsErrOf, IsTrue, length};
ghost use Rattle.qh_model.specs.contract.Cut.{AreBounds, IsCut, IsEvenCut, Rises, block_count, blocks_of, bound, positions};

use crate::limits::{BLOCK_LIMIT, POINT_LIMIT};
use std::alloc::{AllocError, Global};
use std::marker::Model;

/// A division of the positions of a list, from 0 on, into consecutive blocks: at least one and at most
/// `BLOCK_LIMIT`, none of them empty.
///
/// A contract sees a cut as its bounds: 0, then for each block the position past its last.
#[derive(Debug, Drop)]
pub struct Cut {
    bounds: Vec<u32>,
}

impl Model for Cut {
    ghost use Rattle.std.specs.Prelude.{ℕ, List};
    ghost use Rattle.qh_model.specs.contract.Cut.{IsCut};

    ghost Value = { List ℕ };

    ghost view = { λ c. c.bounds.items };

    ghost invariant = { λ c. IsCut c.bounds.items };
}

/// Why a cut is refused.
#[derive(Clone, Copy, Debug, PartialEq, Eq, Drop)]
pub enum CutError {
    /// 1: the size of a block is 0.
    ZeroSize,
    /// 2: there would be more than `BLOCK_LIMIT` blocks.
    TooManyBlocks,
    /// 3: an allocation failed.
    Memory,
    /// 4: the bounds do not begin with 0, do not rise, have no block, or end above `POINT_LIMIT`.
    BadBounds,
}

/// Returns the bounds of `blocks` blocks of `size` positions, of which the last ends at `m`.
fn even_bounds(alloc: Global, m: u32, size: u32, blocks: u32) -> Result<Vec<u32>, AllocError>
    requires size { size ≢ 0 }
    requires blocks { blocks ≡ blocks_of m size }
    ensures { IfOk result (λ v. IsEvenCut m size v.items) }
{
    let mut bounds = Vec::with_capacity(alloc, blocks as usize + 1)?;
    for block in 0..blocks {
        bounds.push(block * size)?;
    }
    bounds.push(m)?;
    Ok(bounds)
}

/// Returns true if each bound is below the next.
fn rises(bounds: &[u32]) -> bool
    ensures { IsTrue result ↔ Rises bounds.now }
{
    for j in 1..bounds.len() {
        if bounds[j - 1] >= bounds[j] {
            return false;
        }
    }
    true
}

/// Returns true if the list holds the bounds of a cut with any number of blocks.
fn are_bounds(bounds: &[u32]) -> bool
    ensures { IsTrue result ↔ AreBounds bounds.now }
{
    bounds.len() >= 2 && bounds[0] == 0 && bounds[bounds.len() - 1] <= POINT_LIMIT && rises(bounds)
}

impl Cut {
    /// Returns the cut of `m` positions into blocks of `size` positions each; the last block may be shorter. The caller
    /// keeps `m` from 1 to `POINT_LIMIT`.
    ///
    /// # Errors
    ///
    /// `ZeroSize`, then `TooManyBlocks`, both decided by the numbers alone; `Memory` if an allocation failed.
    pub fn even(alloc: Global, m: u32, size: u32) -> Result<Cut, CutError>
        requires some { 0 < m }
        requires few { m ≤ POINT_LIMIT }
        ensures even { IfOk result (IsEvenCut m size) }
        ensures zero { IsErrOf result CutError.ZeroSize ↔ (size ≡ 0) }
        ensures many { IsErrOf result CutError.TooManyBlocks ↔ ((size ≢ 0) × (BLOCK_LIMIT < blocks_of m size)) }
        ensures bounds { ¬ (IsErrOf result CutError.BadBounds) }
    {
        if size == 0 {
            return Err(CutError::ZeroSize);
        }
        let blocks = m.div_ceil(size);
        if blocks > BLOCK_LIMIT {
            return Err(CutError::TooManyBlocks);
        }
        let Ok(bounds) = even_bounds(alloc, m, size, blocks) else {
            return Err(CutError::Memory);
        };
        Ok(Cut { bounds })
    }

    /// Returns the cut with these bounds. It keeps the list and allocates no memory.
    ///
    /// # Errors
    ///
    /// `TooManyBlocks` for more than `BLOCK_LIMIT` + 1 bounds, whatever they are; then `BadBounds`.
    pub fn from_bounds(bounds: Vec<u32>) -> Result<Cut, CutError>
        ensures given { IfOk result (λ c. c ≡ bounds.items) }
        ensures many { IsErrOf result CutError.TooManyBlocks ↔ (BLOCK_LIMIT + 1 < length bounds.items) }
        ensures bad { IsErrOf result CutError.BadBounds ↔ ((length bounds.items ≤ BLOCK_LIMIT + 1) × (¬ (AreBounds bounds.items))) }
        ensures zero { ¬ (IsErrOf result CutError.ZeroSize) }
        ensures memory { ¬ (IsErrOf result CutError.Memory) }
    {
        if bounds.len() > BLOCK_LIMIT as usize + 1 {
            return Err(CutError::TooManyBlocks);
        }
        if !are_bounds(bounds.as_slice()) {
            return Err(CutError::BadBounds);
        }
        Ok(Cut { bounds })
    }

    /// Returns the number of blocks, from 1 to `BLOCK_LIMIT`.
    pub fn blocks(&self) -> u32
        ensures count { result ≡ block_count self.now }
        ensures cut { IsCut self.now }
    {
        self.bounds.len() as u32 - 1
    }

    /// Returns the first position of block `j` and the position past its last.
    pub fn block(&self, j: u32) -> (u32, u32)
        requires { j < block_count self.now }
        ensures from { result.0 ≡ bound self.now j }
        ensures to { result.1 ≡ bound self.now (j + 1) }
        ensures some { result.0 < result.1 }
        ensures within { result.1 ≤ positions self.now }
    {
        (self.bounds[j as usize], self.bounds[j as usize + 1])
    }
}
