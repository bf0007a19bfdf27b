//! The gate, which is notified of the blocks of a run and takes its last hull.
ghost use Rattle.std.specs.Prelude.{◌<◌, IfOk, length};
ghost use Rattle.qh_model.specs.{contract.IdSets.IsIdSet, contract.IdSets.AreIndices, headline.Hull.IsBody};
ghost use Rattle.qh_model.specs.headline.{Predicates.place, Sets.Members};

use qh_block::hull;
use qh_model::{Body, Id, Memory, Point};
use std::alloc::Global;

/// Is notified of the blocks of a run, from the workers' threads, and takes the hull at its end.
///
/// The blocks are those of the cut that the run was given. A pass gives up where the tree does not pay, and claims no more
/// of them then.
///
/// A gate may block the thread that calls it. No other worker waits for that thread. By default it does nothing at blocks,
/// and takes the hull by `qh_block::hull`.
pub trait Gate: Sync {
    /// Called after a pass has claimed a block, before the pass works on it.
    fn claimed(&self, _pass: u32, _block: u32) {}

    /// Called after a pass has delivered the extreme ids of a block, once the board has answered.
    fn delivered(&self, _pass: u32, _block: u32) {}

    /// Returns the hull of a set. The precondition is that of `qh_block::hull`, which the caller of the run also
    /// ensures.
    ///
    /// # Errors
    ///
    /// `Memory` if an allocation failed; a gate may also return it if none failed.
    fn finish(&self, alloc: Global, pts: &[Point], ids: &[Id]) -> Result<Body, Memory>
        requires some { 0 < length ids.now }
        requires indices { AreIndices pts.now ids.now }
        ensures { IfOk result (λ b. IsIdSet pts.now ids.now → IsBody (place pts.now) (Members ids.now) b) }
    {
        hull(alloc, pts, ids)
    }
}

/// The gate with all defaults.
#[derive(Clone, Copy, Debug, Drop)]
pub struct NoGate;

impl Gate for NoGate {}
