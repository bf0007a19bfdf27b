//! The sides of triangles as numbers, sorted by their ends, so that those of one edge meet.
ghost use Rattle.std.specs.Prelude.{◌≡◌, ◌++◌, ◌∷◌, [], ◌+◌, ◌*◌, ◌/◌, ◌≤◌, ◌<◌, All, IfOk, OnOk, length};
ghost use Rattle.std.specs.List.{Sorted.IsNonDecreasing};
ghost use Rattle.qh_model.specs.declared.limits.TheConstants.{POINT_LIMIT};
ghost use Rattle.qconvex_c.specs.contract.Neighbors.{side_from, side_to, sides_in};
ghost use Rattle.qconvex_c.specs.declared.side_keys.TheConstants.{SIDE_ROOM};
ghost use Rattle.qconvex_c.specs.steps.SideKeys.{AreKeys};

use qh_model::POINT_LIMIT;
use std::alloc::{AllocError, Global};

/// The range of a side in its key: 2^23, above three times the greatest number of triangles.
pub const SIDE_ROOM: u64 = 8388608;

/// The keys of the sides to a higher corner, and of the reversed sides to a lower one. A key has the lower end, the
/// higher one and the number of the side, beginning with the highest bits.
#[derive(Drop)]
pub struct SideKeys {
    pub up: Vec<u64>,
    pub down: Vec<u64>,
}

/// Appends the key of a side from `low` to `high`, unless it goes to a lower corner.
fn add(keys: &mut Vec<u64>, low: u32, high: u32, side: usize) -> Result<(), AllocError>
    requires low { low < POINT_LIMIT }
    requires high { high < POINT_LIMIT }
    requires side { side < SIDE_ROOM }
    ensures up { OnOk result (low ≤ high
        → keys.new.items ≡ keys.old.items ++ ((low * POINT_LIMIT + high) * SIDE_ROOM + side) ∷ []) }
    ensures down { OnOk result (high < low → keys.new.items ≡ keys.old.items) }
{
    if low <= high {
        let ends = u64::from(low) * u64::from(POINT_LIMIT) + u64::from(high);
        keys.push(ends * SIDE_ROOM + side as u64)?;
    }
    Ok(())
}

impl SideKeys {
    /// Returns the keys of the sides of triangles, in rising order.
    pub fn sorted(alloc: Global, triangles: &[u32]) -> Result<SideKeys, AllocError>
        requires few { length triangles.now / 3 ≤ 2 * POINT_LIMIT }
        requires corners { All (λ c. c < POINT_LIMIT) triangles.now }
        ensures up { IfOk result (λ k. AreKeys (sides_in triangles.now) (side_from triangles.now) (side_to triangles.now) k.up.items) }
        ensures down { IfOk result (λ k. AreKeys (sides_in triangles.now) (side_to triangles.now) (side_from triangles.now) k.down.items) }
        ensures up_rises { IfOk result (λ k. IsNonDecreasing k.up.items) }
        ensures down_rises { IfOk result (λ k. IsNonDecreasing k.down.items) }
    {
        let sides = triangles.len() / 3 * 3;
        let mut up = Vec::with_capacity(alloc, sides / 2)?;
        let mut down = Vec::with_capacity(alloc, sides / 2)?;
        for side in 0..sides {
            let first = side / 3 * 3;
            let from = triangles[first + (side + 1) % 3];
            let to = triangles[first + (side + 2) % 3];
            add(&mut up, from, to, side)?;
            add(&mut down, to, from, side)?;
        }
        up.sort_unstable();
        down.sort_unstable();
        Ok(SideKeys { up, down })
    }
}
