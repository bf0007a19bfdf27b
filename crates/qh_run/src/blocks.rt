//! Ids of distinct points that are cut into blocks, and their extreme ids.
ghost use Rattle.std.specs.Prelude.{◌≡◌, ◌↔◌, ◌⊎◌, ◌<◌, ◌+◌, ℕ, IfOk, length};
ghost use Rattle.std.specs.List.Sorted.{IsStrictlyIncreasing};
ghost use Rattle.qh_model.specs.contract.{BoardMachine.InSpan, Cut.block_count, Cut.positions};
ghost use Rattle.qh_model.specs.contract.IdSets.{HasDistinctPoints, IsIdSet, AreIndices};
ghost use Rattle.qh_model.specs.{contract.RightValue.RightValue, headline.Hull.AreExtremes, headline.Predicates.place};
ghost use Rattle.qh_model.specs.headline.Sets.{In, Members};

use crate::reduction::{Claimed, GivesUp, Reduction};
use qh_block::{Allowance, TELLING, are_few, extremes_unculled};
use qh_board::Spans;
use qh_model::{Cut, Id, Memory, Point};
use std::alloc::Global;
use std::sync::atomic::{AtomicBool, Ordering};

/// Rising ids of distinct points, such as those that the interior filter leaves, and a cut of their positions.
#[derive(Drop)]
pub(crate) struct Blocks<'a> {
    pub pts: &'a [Point],
    pub ids: &'a [Id],
    pub cut: &'a Cut,
    /// True once a pass found too many extreme ids. The tree has no root then, so others give up at their next block.
    given_up: AtomicBool,
    ghost indices: { AreIndices pts.now ids.now },
    ghost rising: { IsStrictlyIncreasing ids.now },
    ghost distinct: { HasDistinctPoints (place pts.now) (Members ids.now) },
    ghost whole: { positions cut.now ≡ length ids.now },
}

/// The result for some blocks.
#[derive(Drop)]
pub struct Extremes {
    /// The extreme ids of the blocks' ids, rising.
    pub ids: Vec<Id>,
    /// How many ids of these blocks may be extreme for the tree to pay.
    pub allowance: Allowance,
    ghost some: { 0 < length ids.items },
}

impl<'a> Spans for Blocks<'a> {
    type Value = Extremes;

    ghost right = { λ set span found. RightValue set.pts.now set.ids.now set.cut.now span found.ids.items };
}

impl<'a> Blocks<'a> {
    /// Returns the blocks of a cut.
    pub fn new(pts: &'a [Point], ids: &'a [Id], cut: &'a Cut) -> Blocks<'a>
        requires indices { AreIndices pts.now ids.now }
        requires set { IsIdSet pts.now ids.now }
        requires whole { positions cut.now ≡ length ids.now }
        ensures pts { result.pts.now ≡ pts.now }
        ensures ids { result.ids.now ≡ ids.now }
        ensures cut { result.cut.now ≡ cut.now }
    {
        Blocks {
            pts,
            ids,
            cut,
            given_up: AtomicBool::new(false),
        }
    }

    /// Makes the other passes give up, too.
    fn give_up(&self) -> GivesUp {
        self.given_up.store(true, Ordering::SeqCst);
        GivesUp
    }

    /// Tests with the first ids of a large block whether the tree pays, before a pass works on its first block.
    fn ask_sample(&self, alloc: Global, block: &[Id]) -> Result<(), GivesUp>
        requires { AreIndices self.now.pts.now block.now }
    {
        if block.len() > TELLING {
            let (sample, _) = block.split_at(TELLING);
            let found = extremes_unculled(alloc, self.pts, sample)?;
            if !are_few(found.len(), TELLING) {
                return Err(self.give_up());
            }
        }
        Ok(())
    }

    /// Returns the extreme ids of a part of the ids; the part contains every id that is extreme in the blocks with this
    /// allowance. Gives up if more ids are extreme than it allows.
    fn extremes_among(
        &self,
        alloc: Global,
        part: &[Id],
        allowance: Allowance,
    ) -> Result<Extremes, GivesUp>
        requires some { 0 < length part.now }
        requires indices { AreIndices self.now.pts.now part.now }
        requires set { IsIdSet self.now.pts.now part.now }
        ensures { IfOk result (λ found. AreExtremes (place self.now.pts.now) (Members part.now) found.ids.items) }
    {
        let ids = extremes_unculled(alloc, self.pts, part)?;
        if !allowance.admits(ids.len()) {
            return Err(self.give_up());
        }
        Ok(Extremes { ids, allowance })
    }

    /// Returns the extreme ids of a block. Gives up if its allowance does not admit them.
    fn reduced(&self, alloc: Global, block: u32) -> Result<Extremes, GivesUp>
        requires { block < block_count self.now.cut.now }
        ensures { IfOk result (λ found. RightValue self.now.pts.now self.now.ids.now self.now.cut.now
            (InSpan (block_count self.now.cut.now) (block_count self.now.cut.now + block)) found.ids.items) }
    {
        let (from, to) = self.cut.block(block);
        let ids = &self.ids[from as usize..to as usize];
        self.extremes_among(alloc, ids, Allowance::of_block(ids.len()))
    }
}

/// Returns the ids of two lists, rising, each once.
fn union(alloc: Global, one: &[Id], two: &[Id]) -> Result<Vec<Id>, Memory>
    ensures rising { IfOk result (λ v. IsStrictlyIncreasing v.items) }
    ensures members { IfOk result (λ v. (i : ℕ) → In i v.items ↔ (In i one.now ⊎ In i two.now)) }
{
    let mut all = Vec::with_capacity(alloc, one.len().saturating_add(two.len()))?;
    all.extend_from_slice(one)?;
    all.extend_from_slice(two)?;
    all.sort_unstable();
    all.dedup();
    Ok(all)
}

impl<'a> Reduction for Blocks<'a> {
    ghost count = { λ set. block_count set.cut.now };

    fn blocks(&self) -> u32 {
        self.cut.blocks()
    }

    fn reduce(&self, alloc: Global, block: u32, claimed: Claimed) -> Result<Extremes, GivesUp> {
        if self.given_up.load(Ordering::SeqCst) {
            return Err(GivesUp);
        }
        if claimed == Claimed::First {
            let (from, to) = self.cut.block(block);
            self.ask_sample(alloc, &self.ids[from as usize..to as usize])?;
        }
        self.reduced(alloc, block)
    }

    fn combine(
        &self,
        alloc: Global,
        _node: u32,
        even: Extremes,
        odd: Extremes,
    ) -> Result<Extremes, GivesUp> {
        let both = union(alloc, &even.ids, &odd.ids)?;
        self.extremes_among(alloc, &both, even.allowance.and(odd.allowance))
    }
}
