//! Room for a replacement, which is reserved before the mesh changes.
ghost use Rattle.std.specs.Prelude.{◌≡◌, ◌↔◌, IsTrue, ◌+◌, ◌*◌, ◌^◌, ◌≤◌, ◌<◌, OnOk};
ghost use Rattle.qh_model.specs.declared.limits.TheConstants.{POINT_LIMIT};
ghost use Rattle.qh_mesh.specs.steps.Rooms.{HasRoom, IsBlank};

use crate::facets::{Facet, FacetSide};
use crate::slots::Slot;
use qh_model::FacetNo;
use std::alloc::{AllocError, Global};

/// The greatest number of places that a mesh can have: the numbers of their half-edges fit 32 bits.
const PLACES: usize = 1_431_655_765;

/// Memory that a replacement uses, and that a mesh keeps for the next one.
#[derive(Drop)]
pub struct ReplacementScratch {
    /// A table of the corners.
    pub slots: Vec<Slot>,
    /// The horizon.
    pub horizon: Vec<FacetSide>,
    /// The facets of the cone.
    pub made: Vec<FacetNo>,
}

impl ReplacementScratch {
    /// Creates an empty scratch.
    pub fn new(alloc: Global) -> ReplacementScratch {
        ReplacementScratch {
            slots: Vec::new(alloc),
            horizon: Vec::new(alloc),
            made: Vec::new(alloc),
        }
    }
}

/// Returns true if the half-edges of `places + more` places have numbers that fit 32 bits.
///
/// By Euler's formula a hull of n points has fewer than 2n triangles. A replacement reserves room for at most twice
/// their number, so the numbers of the half-edges of `POINT_LIMIT` points fit.
fn are_numbered(places: usize, more: usize) -> bool
    ensures exact { IsTrue result ↔ (3 * (places + more) < 2 ^ 32) }
    ensures hull { places + more ≤ 3 * (2 * POINT_LIMIT) → IsTrue result }
{
    places <= PLACES && more <= PLACES - places
}

/// Reserves the room that a replacement of `count` facets can need.
pub fn make_room(
    facets: &mut Vec<Facet>,
    free: &mut Vec<FacetNo>,
    scratch: &mut ReplacementScratch,
    points: usize,
    count: usize,
) -> Result<(), AllocError>
    ensures facets { facets.new.items ≡ facets.old.items }
    ensures free { free.new.items ≡ free.old.items }
    ensures blank { IsBlank scratch.new }
    ensures room { OnOk result (HasRoom facets.new free.new scratch.new count) }
{
    scratch.horizon.clear();
    scratch.made.clear();
    let Some(most) = count.checked_mul(3) else {
        return Err(AllocError);
    };
    let spare = (2 * count).saturating_sub(free.len());
    if !are_numbered(facets.len(), spare) {
        return Err(AllocError);
    }
    if scratch.slots.len() < points {
        let empty = Slot {
            starting: 0,
            ending: 0,
        };
        scratch.slots.resize(points, empty)?;
    }
    scratch.horizon.reserve(most)?;
    free.reserve(count)?;
    facets.reserve(spare)?;
    scratch.made.reserve(most)?;
    Ok(())
}
