//! A replacement, after room for it has been reserved.
ghost use Rattle.std.specs.Prelude.{◌≡◌, ◌+◌, ◌*◌, ◌≤◌, length, reverse, [], vec_len, vec_capacity};
ghost use Rattle.qh_mesh.specs.{contract.Replacement.AreFacets, steps.Places.IsPool};
ghost use Rattle.qh_mesh.specs.steps.Rebuilt.{IsCleared, IsConed, IsPrepared, IsReady, IsRebuilt};
ghost use Rattle.qh_mesh.specs.steps.{Rooms.HasRoom, Rooms.IsBlank, Surfaces.IsSurface};

use crate::cone::{join_outer, write_cone};
use crate::facets::{Facet, FacetSide};
use crate::horizon::gather;
use crate::places::{allocate_all, remove};
use crate::room::ReplacementScratch;
use crate::slots::{Slot, Table};
use qh_model::FacetNo;

/// Removes the visible facets and records their horizon.
#[tactic(auto, using(crate::proofs::HorizonSides::sides_inside, crate::proofs::HorizonSides::gathered))]
fn clear(
    facets: &mut [Facet],
    free: &mut Vec<FacetNo>,
    horizon: &mut Vec<FacetSide>,
    visible: &[FacetNo],
)
    requires surface { IsSurface facets.old free.old.items }
    requires facets { AreFacets facets.old visible.now }
    requires room { vec_len free.old + length visible.now ≤ vec_capacity free.old }
    requires horizon_empty { horizon.old.items ≡ [] }
    requires horizon_room { 3 * length visible.now ≤ vec_capacity horizon.old }
    ensures cleared { IsCleared facets.old facets.new visible.now horizon.new.items }
    ensures count { vec_len horizon.new ≤ 3 * length visible.now }
    ensures pool { IsPool facets.new (reverse free.new.items) }
    ensures len { vec_len free.new ≡ vec_len free.old + length visible.now }
{
    remove(facets, free, visible);
    gather(facets, visible, horizon);
}

/// Writes the cone from the apex to the horizon into its places.
fn close(facets: &mut [Facet], slots: &[Slot], horizon: &[FacetSide], made: &[FacetNo], apex: u32)
    requires { IsReady facets.old horizon.now made.now }
    ensures { IsConed facets.old facets.new horizon.now made.now apex }
{
    let is_complete = join_outer(facets, slots, horizon, made);
    let table = Table { slots, is_complete };
    write_cone(facets, table, horizon, made, apex);
}

/// Removes the visible facets, records their horizon and allocates places for the cone.
#[tactic(auto, using(crate::proofs::Pools::few_free))]
fn prepare(
    facets: &mut Vec<Facet>,
    free: &mut Vec<FacetNo>,
    scratch: &mut ReplacementScratch,
    visible: &[FacetNo],
)
    requires surface { IsSurface facets.old.items free.old.items }
    requires facets { AreFacets facets.old.items visible.now }
    requires blank { IsBlank scratch.old }
    requires room { HasRoom facets.old free.old scratch.old (length visible.now) }
    ensures { IsPrepared facets.old.items facets.new.items free.new.items visible.now scratch.new.horizon.items
        scratch.new.made.items }
{
    clear(facets.as_mut_slice(), free, &mut scratch.horizon, visible);
    allocate_all(
        facets,
        free,
        scratch.slots.as_mut_slice(),
        scratch.horizon.as_slice(),
        &mut scratch.made,
    );
}

/// Removes the visible facets and adds the cone from the apex to their horizon. The facets of the cone are listed.
pub fn rebuild(
    facets: &mut Vec<Facet>,
    free: &mut Vec<FacetNo>,
    scratch: &mut ReplacementScratch,
    visible: &[FacetNo],
    apex: u32,
)
    requires surface { IsSurface facets.old.items free.old.items }
    requires facets { AreFacets facets.old.items visible.now }
    requires blank { IsBlank scratch.old }
    requires room { HasRoom facets.old free.old scratch.old (length visible.now) }
    ensures { IsRebuilt facets.old.items facets.new.items free.new.items visible.now apex scratch.new.made.items }
{
    prepare(facets, free, scratch, visible);
    close(
        facets.as_mut_slice(),
        scratch.slots.as_slice(),
        scratch.horizon.as_slice(),
        scratch.made.as_slice(),
        apex,
    );
}
