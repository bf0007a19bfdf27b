//! The numbers of the sides of facets, and the storage of a facet.
ghost use Rattle.std.specs.Prelude.{◌≡◌, ◌+◌, ◌*◌, ◌<◌, ◌^◌, map, [], ◌∷◌};
ghost use Rattle.qh_model.specs.contract.StoredSurface.{named_facet, no_facet};
ghost use Rattle.qh_mesh.specs.contract.Edges.{edge_of, facet_of, nth_side, side_of_edge};
ghost use Rattle.qh_mesh.specs.contract.Names.{name_in};
ghost use Rattle.qh_mesh.specs.steps.Kept.{facet_from, outer_of, removed, side_of, with_twin};

use qh_model::{FacetNo, Id};
use std::marker::Model;

/// The number of a side of a facet, a half-edge: three times the number of the facet, plus 0, 1 or 2. It runs from that
/// corner of the facet to the next.
///
/// A contract sees it as a number.
#[derive(Clone, Copy, Debug, PartialEq, Eq, Drop)]
pub struct EdgeNo(usize);

impl Model for EdgeNo {
    ghost use Rattle.std.specs.Prelude.{ℕ};

    ghost Value = { ℕ };

    ghost view = { λ e. e.0 };

    ghost inverse = { λ n. record { 0 = n } };
}

impl EdgeNo {
    /// Returns the side 0, 1 or 2 of a facet.
    #[tactic(auto, using(crate::proofs::EdgeSides::side_left_over))]
    pub(crate) fn of(facet: FacetNo, side: usize) -> EdgeNo
        requires side { side < 3 }
        requires fits { 3 * facet + 2 < 2 ^ 32 }
        ensures { result ≡ edge_of facet (nth_side side) }
    {
        EdgeNo(3 * facet.index() + side)
    }

    /// Returns the number, as a mesh stores it.
    pub(crate) fn number(self) -> u32
        requires { self < 2 ^ 32 }
        ensures { result ≡ self }
    {
        self.0 as u32
    }

    /// Returns the facet of the half-edge.
    pub(crate) fn facet(self) -> FacetNo
        ensures { result ≡ facet_of self }
    {
        FacetNo::new(self.0 / 3)
    }

    /// Returns the index of the side in its facet: 0, 1 or 2.
    pub(crate) fn side(self) -> usize
        ensures side { nth_side result ≡ side_of_edge self }
        ensures inside { result < 3 }
    {
        self.0 % 3
    }
}

/// One side of a facet: the corners where it starts and ends, and the half-edge across it.
#[derive(Clone, Copy, Drop)]
pub struct FacetSide {
    pub from: u32,
    pub to: u32,
    pub outer: u32,
}

impl FacetSide {
    /// Returns the side from a corner to the next, with the half-edge across it.
    pub fn new(from: u32, to: u32, outer: u32) -> FacetSide
        ensures { result ≡ record { from = from; to = to; outer = outer } }
    {
        FacetSide { from, to, outer }
    }

    /// Returns the half-edge across it.
    pub fn across(self) -> EdgeNo
        ensures { result ≡ self.outer }
    {
        EdgeNo(self.outer as usize)
    }
}

/// A facet as a mesh stores it, in 28 bytes: its corners, counterclockwise seen from outside, and the half-edge across
/// each of its sides. A free place is not live.
#[derive(Clone, Copy)]
pub struct Facet {
    i: u32,
    j: u32,
    k: u32,
    twins: [u32; 3],
    live: bool,
}

impl Model for Facet {
    ghost use Rattle.std.specs.Prelude.{◌≡◌, length, slice_index, [], ◌∷◌};
    ghost use Rattle.qh_model.specs.contract.StoredSurface.{StoredFacet};
    ghost use Rattle.qh_mesh.specs.steps.ThreeTwins.{three_are};

    ghost Value = { StoredFacet };

    ghost view = { λ f. let ts = f.twins in
        record { i = f.i; j = f.j; k = f.k; ij = slice_index ts 0; jk = slice_index ts 1; ki = slice_index ts 2; live = f.live } };

    ghost invariant = { λ f. length f.twins ≡ 3 };

    ghost inverse = { λ f. record { i = f.i; j = f.j; k = f.k; twins = f.ij ∷ f.jk ∷ f.ki ∷ []; live = f.live } };

    ghost inverse_ok = { λ f h i. record { i = f.i; j = f.j; k = f.k; twins = three_are f.twins h i; live = f.live } };
}

impl Facet {
    /// Returns the facet over a side, with a third corner and the half-edges across its sides to and from
    /// that corner.
    pub fn over(side: FacetSide, third: u32, to_third: u32, from_third: u32) -> Facet
        ensures { result ≡ facet_from side.from side.to third side.outer to_third from_third }
    {
        Facet {
            i: side.from,
            j: side.to,
            k: third,
            twins: [side.outer, to_third, from_third],
            live: true,
        }
    }

    /// Returns the content of a free place, which is not live.
    pub fn none() -> Facet
        ensures { result ≡ no_facet }
    {
        Facet {
            i: 0,
            j: 0,
            k: 0,
            twins: [0; 3],
            live: false,
        }
    }

    /// Returns true if the facet is part of the surface.
    pub fn is_live(self) -> bool
        ensures { result ≡ self.live }
    {
        self.live
    }

    /// Returns the facet, marked as no longer live.
    pub fn removed(self) -> Facet
        ensures { result ≡ removed self }
    {
        let mut facet = self;
        facet.live = false;
        facet
    }

    /// Returns its corners.
    pub fn corners(self) -> [Id; 3]
        ensures { result ≡ self.i ∷ self.j ∷ self.k ∷ [] }
    {
        [Id::new(self.i), Id::new(self.j), Id::new(self.k)]
    }

    /// Returns its side 0, 1 or 2.
    pub fn side(self, number: usize) -> FacetSide
        requires { number < 3 }
        ensures { result ≡ side_of self (nth_side number) }
    {
        let (from, to) = match number {
            0 => (self.i, self.j),
            1 => (self.j, self.k),
            _ => (self.k, self.i),
        };
        let outer = self.twins[number];
        FacetSide { from, to, outer }
    }

    /// Returns the half-edge across its side 0, 1 or 2.
    pub fn across(self, number: usize) -> EdgeNo
        requires { number < 3 }
        ensures { result ≡ outer_of self (nth_side number) }
    {
        EdgeNo(self.twins[number] as usize)
    }

    /// Sets the half-edge across its side 0, 1 or 2.
    pub fn set_twin(&mut self, number: usize, twin: u32)
        requires { number < 3 }
        ensures { self.new ≡ with_twin self.old (nth_side number) twin }
    {
        self.twins[number] = twin;
    }

    /// Returns the facet with its corners replaced by ids of a list: corner l becomes the id at position l. A corner
    /// past the end of the list is unchanged.
    pub fn named(self, ids: &[Id]) -> Facet
        ensures { result ≡ named_facet (name_in ids.now) self }
    {
        let mut facet = self;
        facet.i = name_at(ids, self.i);
        facet.j = name_at(ids, self.j);
        facet.k = name_at(ids, self.k);
        facet
    }
}

/// Returns the id at a position, or the position itself if the list has no id there.
fn name_at(ids: &[Id], position: u32) -> u32
    ensures { result ≡ name_in ids.now position }
{
    match ids.get(position as usize) {
        Some(id) => id.number(),
        None => position,
    }
}

/// Replaces the corners of each facet by ids of a list.
pub fn name_all(facets: &mut [Facet], ids: &[Id])
    ensures { facets.new ≡ map (named_facet (name_in ids.now)) facets.old }
{
    for facet in facets.iter_mut() {
        *facet = facet.named(ids);
    }
}
