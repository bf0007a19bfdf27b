//! Budgets, which limit the number of tests of a search.
ghost use Rattle.std.specs.Prelude.{◌≡◌, ◌+◌, ◌-◌, ◌*◌, ◌≤◌, ◌↔◌, IsTrue};
ghost use Rattle.qh_places.specs.declared.budget.TheConstants.{LEAST};

use crate::places::{LEAF, Near};

/// The least budget. Searches in small sets, which take less than a millisecond, are never given up.
const LEAST: u64 = 65_536;

/// The number of blocks, points and facets that a search may still examine. Since it is a count and not a time, every
/// run over the same points gives up at the same step.
#[derive(Clone, Copy, Debug, Drop)]
pub struct Budget {
    /// The remaining number.
    pub left: u64,
}

impl Budget {
    /// Creates a budget of `each` for each of `count` items, or the least budget if that is more.
    pub fn for_each(count: usize, each: u32) -> Budget
        ensures least { LEAST ≤ result.left }
        ensures most { result.left ≤ count * each + LEAST }
    {
        let all = (count as u64).saturating_mul(u64::from(each));
        Budget {
            left: all.max(LEAST),
        }
    }

    /// Subtracts a number from the budget. If the budget was less, sets it to 0 and returns false.
    pub fn spend(&mut self, count: usize) -> bool
        ensures lasts { IsTrue result ↔ count ≤ self.old.left }
        ensures left { self.new.left ≡ self.old.left - count }
    {
        let count = count as u64;
        let lasts = count <= self.left;
        self.left = self.left.saturating_sub(count);
        lasts
    }

    /// Returns true if the budget is exhausted.
    pub fn is_spent(&self) -> bool
        ensures { IsTrue result ↔ (self.now.left ≡ 0) }
    {
        self.left == 0
    }
}

impl Near {
    /// Returns an estimate of the number of blocks and points examined: to find the positions, and to test the points
    /// there against `planes` planes.
    pub fn cost(&self, planes: usize) -> usize {
        let points = self.starts.len().saturating_mul(LEAF);
        self.looked.saturating_add(points.saturating_mul(planes))
    }
}
