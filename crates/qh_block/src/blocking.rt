//! The rules of how a set is divided before Quickhull: every number and rule, with its reason.
//!
//! A set is hulled in parts if that is cheaper: most points of a part are not extreme, and the extreme points of all
//! parts are few. These rules decide when. They affect the time and never an answer, since the hull of a set is the
//! same for every division of it. docs/PERFORMANCE.md has the measurements.
ghost use Rattle.std.specs.Prelude.{◌≡◌, ◌↔◌, ◌≤◌, ◌<◌, ◌+◌, ◌*◌, ◌/◌, ◌^◌, ◌⊎◌, ℕ, IsTrue};
ghost use Rattle.qh_model.specs.{contract.Cut.blocks_of, declared.limits.TheConstants.BLOCK_LIMIT};

use qh_model::BLOCK_LIMIT;

/// The number of ids from which the share of extreme ids decides if a division pays.
///
/// Among fewer ids, a large share is extreme in every set.
pub const TELLING: usize = 1024;

/// The block size with which the calling thread alone processes a large set.
///
/// Within a block Quickhull does not sort the points in space, and the interior filter processes each block by itself.
/// Blocks of 16,384 ids took the same time.
pub const BLOCK_ALONE: usize = 65_536;

/// The calling thread alone divides sets of more ids than this. Two blocks gain nothing.
pub const WHOLE_ALONE: usize = 2 * BLOCK_ALONE;

/// Returns true if at most half of the ids are extreme, so that hulling parts first pays.
///
/// If most ids are extreme, each division computes the hull of nearly all ids once more.
pub fn are_few(extremes: usize, among: usize) -> bool
    ensures { IsTrue result ↔ (extremes ≤ among / 2) }
{
    extremes <= among / 2
}

/// How many of the ids of some blocks of a tree may be extreme for the tree to pay.
///
/// A node hulls the lists of both its children. If the share of extreme ids falls by a quarter with each level, all
/// levels above the blocks together hull at most twice the number of ids.
#[derive(Clone, Copy, Debug)]
pub struct Allowance {
    /// The number of ids of the blocks.
    among: usize,
    /// The most extreme ids with which the tree pays.
    most: usize,
}

impl Allowance {
    /// Returns the allowance of a block of this many ids: half of them.
    pub fn of_block(among: usize) -> Allowance
        ensures among { result.among ≡ among }
        ensures most { result.most ≡ among / 2 }
    {
        let most = among / 2;
        Allowance { among, most }
    }

    /// Returns the allowance of the blocks of two nodes: half of the ids if there are too few to decide, otherwise three
    /// quarters of both allowances.
    pub fn and(self, other: Allowance) -> Allowance
        ensures among { self.among + other.among < 2 ^ 64 → result.among ≡ self.among + other.among }
        ensures few { result.among < TELLING → result.most ≡ result.among / 2 }
        ensures many { TELLING ≤ result.among → self.most + other.most < 2 ^ 64 → result.most ≡ (self.most + other.most) / 4 * 3 }
    {
        let among = self.among.saturating_add(other.among);
        if among < TELLING {
            return Allowance::of_block(among);
        }
        let most = self.most.saturating_add(other.most) / 4 * 3;
        Allowance { among, most }
    }

    /// Returns true if the tree continues above these blocks: they have too few ids to decide, or few of their ids are
    /// extreme.
    pub fn admits(self, extremes: usize) -> bool
        ensures { IsTrue result ↔ ((self.among < TELLING) ⊎ (extremes ≤ self.most)) }
    {
        self.among < TELLING || extremes <= self.most
    }
}

/// Returns the size of the blocks of a list of points: the wanted size, or the least greater one with at most
/// `BLOCK_LIMIT` blocks.
///
/// The program wants 4096 if its command line names no other size, so that workers have many blocks of a large set to
/// choose from.
pub fn block_size(count: u32, wanted: u32) -> u32
    requires { 0 < wanted }
    ensures least { wanted ≤ result }
    ensures few { blocks_of count result ≤ BLOCK_LIMIT }
    ensures smallest { (size : ℕ) → wanted ≤ size → blocks_of count size ≤ BLOCK_LIMIT → result ≤ size }
{
    wanted.max(count.div_ceil(BLOCK_LIMIT))
}
