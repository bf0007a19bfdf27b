//! The points of a list, their distinct ids and a cut of these: the spans of a board at which a caller works by `work`.
ghost use Rattle.std.specs.Prelude.{◌≡◌, length};
ghost use Rattle.qh_model.specs.contract.{Cut.block_count, Cut.positions, RightValue.RightValue};
ghost use Rattle.qh_model.specs.headline.DistinctIds.{AreDistinctIds};

use crate::blocks::{Blocks, Extremes};
use crate::reduction::{Claimed, GivesUp, Reduction};
use qh_board::Spans;
use qh_model::{Cut, Id, Point};
use std::alloc::Global;

/// The points, their distinct ids, rising, as `qh_plane::distinct` returns them, and a cut of the ids' positions.
#[derive(Drop)]
pub struct Job<'a> {
    /// The points.
    pub pts: &'a [Point],
    /// Their distinct ids.
    pub ids: &'a [Id],
    /// A cut of the positions of the ids.
    pub cut: &'a Cut,
    ghost distinct: { ∥ AreDistinctIds pts.now ids.now ∥₁ },
    ghost whole: { positions cut.now ≡ length ids.now },
}

impl<'a> Job<'a> {
    /// Returns the blocks of the job.
    pub(crate) fn blocks_of(&self) -> Blocks<'a>
        ensures pts { result.pts.now ≡ self.now.pts.now }
        ensures ids { result.ids.now ≡ self.now.ids.now }
        ensures cut { result.cut.now ≡ self.now.cut.now }
    {
        Blocks::new(self.pts, self.ids, self.cut)
    }
}

impl<'a> Spans for Job<'a> {
    type Value = Extremes;

    ghost right = { λ job span found. RightValue job.pts.now job.ids.now job.cut.now span found.ids.items };
}

impl<'a> Reduction for Job<'a> {
    ghost count = { λ job. block_count job.cut.now };

    fn blocks(&self) -> u32 {
        self.cut.blocks()
    }

    fn reduce(&self, alloc: Global, block: u32, claimed: Claimed) -> Result<Extremes, GivesUp> {
        self.blocks_of().reduce(alloc, block, claimed)
    }

    fn combine(
        &self,
        alloc: Global,
        node: u32,
        even: Extremes,
        odd: Extremes,
    ) -> Result<Extremes, GivesUp> {
        self.blocks_of().combine(alloc, node, even, odd)
    }
}
