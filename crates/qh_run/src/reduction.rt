//! The values of the nodes of a tree over blocks.
ghost use Rattle.std.specs.Prelude.{◌≡◌, ◌+◌, ◌*◌, ◌<◌, ℕ, IfOk};
ghost use Rattle.qh_model.specs.contract.BoardMachine.{InSpan};

use qh_board::Spans;
use qh_model::Memory;
use std::alloc::Global;

/// Why a pass gives up: an allocation failed, or going on would cost more than it saves.
#[derive(Clone, Copy, Debug, Drop)]
pub(crate) struct GivesUp;

impl From<Memory> for GivesUp {
    fn from(_memory: Memory) -> GivesUp {
        GivesUp
    }
}

/// When a pass claimed a block.
#[derive(Clone, Copy, Debug, PartialEq, Eq, Drop)]
pub(crate) enum Claimed {
    /// At its first claim, when the pass knows nothing about the blocks.
    First,
    /// At a later claim, after the pass worked on other blocks and did not give up.
    Later,
}

/// A reduction over blocks: the value of a block, and the value of an inner node, combined from those of its children.
/// A value is right for a node if it is right for the blocks of its span.
pub(crate) trait Reduction: Spans {
    // The number of blocks.
    ghost count: { Self → ℕ };

    /// Returns the number of blocks.
    fn blocks(&self) -> u32
        ensures { result ≡ Self.count self.now };

    /// Returns the value of a block. For the first block of a pass, a sample may decide that the pass gives up.
    fn reduce(&self, alloc: Global, block: u32, claimed: Claimed) -> Result<Self::Value, GivesUp>
        requires { block < Self.count self.now }
        ensures { IfOk result (Self.right self.now (InSpan (Self.count self.now) (Self.count self.now + block))) };

    /// Returns the value of an inner node, from the values of its even child and of its odd child.
    fn combine(
        &self,
        alloc: Global,
        node: u32,
        even: Self::Value,
        odd: Self::Value,
    ) -> Result<Self::Value, GivesUp>
        requires inner { (0 < node) × (node < Self.count self.now) }
        requires even { Self.right self.now (InSpan (Self.count self.now) (2 * node)) even }
        requires odd { Self.right self.now (InSpan (Self.count self.now) (2 * node + 1)) odd }
        ensures { IfOk result (Self.right self.now (InSpan (Self.count self.now) node)) };
}
