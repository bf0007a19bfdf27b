//! Blocks of consecutive positions of a list of points.
ghost use Rattle.std.specs.Prelude.{◌≡◌, ◌+◌, ◌^◌, ◌<◌, List, IfOk};
ghost use Rattle.std.specs.List.{All};
ghost use Rattle.qh_model.specs.headline.Vector.{Vector};
ghost use Rattle.qh_places.specs.steps.Levels.{IsLevel, AreBelow, AreBelowAll};

use crate::boxes::PointBox;
use crate::bundles::Bundle;
use crate::outward::{Outward, direction_of};
use crate::slabs::Block;
use crate::tangents::Tangent;
use qh_model::Point;
use qh_pred::Plane;
use std::alloc::{AllocError, Global};

/// The binary logarithm of the number of positions of a block on each level except the lowest, the largest blocks
/// first.
const SHIFTS: [u32; 8] = [20, 18, 16, 14, 12, 10, 8, 6];

/// Blocks of `2 ^ shift` consecutive positions. The last block may have fewer.
#[derive(Drop)]
pub(crate) struct Level {
    pub shift: u32,
    pub blocks: Vec<Block>,
}

/// Returns the number of positions of a block with this binary logarithm.
#[tactic(auto, using(std::proofs::lemmas::Nat::one_shl))]
fn positions(shift: u32) -> usize
    requires { shift < 63 }
    ensures { result ≡ 2 ^ shift }
{
    1 << shift
}

impl Level {
    /// Returns the blocks of `2 ^ shift` positions. `outward` has a guess of the outward direction for each point.
    pub fn over(
        alloc: Global,
        points: &[Point],
        outward: &[Outward],
        shift: u32,
    ) -> Result<Level, AllocError>
        requires { shift < 63 }
        ensures { IfOk result (IsLevel points.now) }
    {
        let size = positions(shift);
        let mut blocks = Vec::new(alloc);
        let mut rest = points;
        let mut ways = outward;
        while !rest.is_empty() {
            let (block, others) = rest.split_at(size.min(rest.len()));
            let (own, further) = ways.split_at(size.min(ways.len()));
            blocks.push(Block::around(block, direction_of(own)))?;
            rest = others;
            ways = further;
        }
        Ok(Level { shift, blocks })
    }

    /// Returns the number of points, beginning at a position, that the box of one block proves to lie below the plane:
    /// the size of the block if it begins at the position and lies below, else 0.
    pub fn below(&self, plane: &Plane, from: usize) -> usize
        ensures { (points : List Vector) → IsLevel points self.now → AreBelow points plane.now from (from + result) }
    {
        if self.shift >= 63 {
            return 0;
        }
        let block = from >> self.shift;
        let size = positions(self.shift);
        if block * size != from {
            return 0;
        }
        match self.blocks.get(block) {
            Some(found) => {
                if found.bounds.is_below(plane) {
                    size
                } else {
                    0
                }
            }
            None => 0,
        }
    }

    /// Returns the number of points, beginning at a position, that a single block proves to lie below all planes of a
    /// bundle: the size of a block that begins at the position and lies below, else 0.
    pub fn below_all(&self, bundle: &Bundle, from: usize) -> usize
        ensures { (points : List Vector) → IsLevel points self.now → AreBelowAll points bundle.now from (from + result) }
    {
        if self.shift >= 63 {
            return 0;
        }
        let block = from >> self.shift;
        let size = positions(self.shift);
        if from != block * size {
            return 0;
        }
        match self.blocks.get(block) {
            Some(found) => { if bundle.is_above(found) { size } else { 0 } }
            None => 0,
        }
    }

    /// Returns the number of points, beginning at a position, that a block shows to lie below a plane, or 0.
    fn below_one(&self, tangent: &Tangent, from: usize) -> usize {
        let below = self.below(&tangent.plane, from);
        if below > 0 {
            return below;
        }
        self.below_all(&tangent.bundle, from)
    }

    /// Returns the box and the points of the block that begins at a position, if there is one. `points` are those of the
    /// level.
    pub fn block<'a>(
        &'a self,
        points: &'a [Point],
        from: usize,
    ) -> Option<(&'a PointBox, &'a [Point])> {
        if self.shift >= 63 {
            return None;
        }
        let block = from >> self.shift;
        let size = positions(self.shift);
        if block * size != from {
            return None;
        }
        let found = self.blocks.get(block)?;
        let to = from.saturating_add(size).min(points.len());
        Some((&found.bounds, points.get(from..to)?))
    }
}

/// Returns the levels over points except the lowest, the largest blocks first. `outward` has a guess of the outward
/// direction for each point.
pub(crate) fn levels_over(
    alloc: Global,
    points: &[Point],
    outward: &[Outward],
) -> Result<Vec<Level>, AllocError>
    ensures { IfOk result (λ v. All (IsLevel points.now) v.items) }
{
    let mut levels = Vec::new(alloc);
    for shift in SHIFTS {
        // A level of one block is useless if the level below it has one block, too.
        if points.len() <= positions(shift) / 4 {
            continue;
        }
        levels.push(Level::over(alloc, points, outward, shift)?)?;
    }
    Ok(levels)
}

/// Returns the number of points, beginning at a position, in the largest block that begins there and lies below all
/// planes of a bundle; 0 if there is no such block.
pub(crate) fn below_all(levels: &[Level], bundle: &Bundle, from: usize) -> usize
    ensures { (points : List Vector) → All (IsLevel points) levels.now → AreBelowAll points bundle.now from (from + result) }
{
    let aligned = from.trailing_zeros();
    for level in levels {
        if level.shift > aligned {
            continue;
        }
        let below = level.below_all(bundle, from);
        if below > 0 {
            return below;
        }
    }
    0
}

/// Returns the number of points, beginning at a position, in the largest block that begins there and is shown to lie
/// below a plane; 0 if there is no such block.
pub(crate) fn below_one(levels: &[Level], leaves: &Level, tangent: &Tangent, from: usize) -> usize {
    let aligned = from.trailing_zeros();
    for level in levels {
        if level.shift > aligned {
            continue;
        }
        let below = level.below_one(tangent, from);
        if below > 0 {
            return below;
        }
    }
    leaves.below_one(tangent, from)
}
