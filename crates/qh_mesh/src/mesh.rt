//! The mesh: its creation, its accessors and its growth.
ghost use Rattle.std.specs.Prelude.{◌≡◌, ◌≢◌, ◌<◌, length, map, max, OnErr, IfOk, pos, [], ◌∷◌, ℕ, ◌<ℤ◌};
ghost use Rattle.qh_model.specs.contract.{Weighted.Weighted, FinishedSurface.weighted_at, FinishedSurface.middle_at};
ghost use Rattle.qh_model.specs.contract.ClosedSurface.{signed_volume, triples_of};
ghost use Rattle.qh_model.specs.contract.StoredSurface.{facet_at, named_facet, surface_of};
ghost use Rattle.qh_model.specs.contract.{Rewired.IsRewired, Surface.rest};
ghost use Rattle.qh_model.specs.headline.{Predicates.vol, Predicates.place, Vector.Vector};
ghost use Rattle.qh_mesh.specs.contract.Edges.{nth_side, side_of_edge, facet_of, edge_of, edge_end, edge_start};
ghost use Rattle.qh_mesh.specs.contract.Edges.{twin_of};
ghost use Rattle.qh_mesh.specs.contract.Replacement.{IsLive, AreFacets, IsReplacement};
ghost use Rattle.qh_mesh.specs.contract.Names.{name_in};
ghost use Rattle.qh_mesh.specs.contract.SoundMesh.{simplex_facets, IsSoundMesh, IsClosedMesh, AreVisible};
ghost use Rattle.qh_mesh.specs.steps.Twins.{HasTwins};

use crate::facets::{EdgeNo, Facet, name_all};
use crate::live::Live;
use crate::rebuild::rebuild;
use crate::room::{ReplacementScratch, make_room};
use crate::simplex::{four, sees};
use qh_model::{FacetNo, Id, Memory, Point};
use std::alloc::Global;
use std::marker::Model;
use std::mem;

/// A closed surface of triangles, each counterclockwise seen from outside.
///
/// A contract sees it as the list of its places.
#[derive(Drop)]
pub struct Mesh {
    facets: Vec<Facet>,
    /// The free places.
    free: Vec<FacetNo>,
    /// Memory for replacements.
    scratch: ReplacementScratch,
}

impl Model for Mesh {
    ghost use Rattle.std.specs.Prelude.{List};
    ghost use Rattle.qh_model.specs.contract.StoredSurface.{StoredFacet};
    ghost use Rattle.qh_mesh.specs.steps.Surfaces.{IsSurface};

    ghost Value = { List StoredFacet };

    ghost view = { λ m. m.facets.items };

    ghost invariant = { λ m. IsSurface m.facets.items m.free.items };
}

impl Mesh {
    /// Returns the four triangles of the points a, b, c and d, oriented outward.
    ///
    /// `Err` means that an allocation failed.
    #[tactic(auto, using(crate::proofs::SoundMeshes::simplex_rules))]
    pub fn simplex(alloc: Global, pts: &[Point], a: Id, b: Id, c: Id, d: Id) -> Result<Mesh, Memory>
        requires a_in { a < length pts.now }
        requires b_in { b < length pts.now }
        requires c_in { c < length pts.now }
        requires d_in { d < length pts.now }
        requires volume { vol (place pts.now a) (place pts.now b) (place pts.now c) (place pts.now d) ≢ pos 0 }
        ensures up { pos 0 <ℤ vol (place pts.now a) (place pts.now b) (place pts.now c) (place pts.now d)
            → IfOk result (λ m. m ≡ simplex_facets a c b d) }
        ensures down { vol (place pts.now a) (place pts.now b) (place pts.now c) (place pts.now d) <ℤ pos 0
            → IfOk result (λ m. m ≡ simplex_facets a b c d) }
        ensures sound { IfOk result (λ m. IsSoundMesh (place pts.now) m (middle_at (place pts.now) a b c d)) }
        ensures closed { IfOk result (λ m. IsClosedMesh (place pts.now) m) }
    {
        if sees(pts, a, b, c, d) {
            Mesh::of_corners(alloc, a, c, b, d)
        } else {
            Mesh::of_corners(alloc, a, b, c, d)
        }
    }

    /// Returns the triangles a b c, a d b, a c d and b d c.
    fn of_corners(alloc: Global, a: Id, b: Id, c: Id, d: Id) -> Result<Mesh, Memory>
        ensures { IfOk result (λ m. m ≡ simplex_facets a b c d) }
    {
        let four = four(a.number(), b.number(), c.number(), d.number());
        let Ok(facets) = Vec::from_slice(alloc, &four) else {
            return Err(Memory);
        };
        Ok(Mesh {
            facets,
            free: Vec::new(alloc),
            scratch: ReplacementScratch::new(alloc),
        })
    }

    /// Reserves room for `facets` more facets, so that the mesh need not be moved while it grows. If the allocation
    /// fails, the mesh grows step by step.
    pub fn ask_for_room(&mut self, facets: usize)
        ensures { self.new ≡ self.old }
    {
        let _ = self.facets.reserve(facets);
    }

    /// Returns the number of places, including free ones. Facet numbers are below it.
    pub fn places(&self) -> usize
        ensures { result ≡ length self.now }
    {
        self.facets.len()
    }

    /// Returns the live facets, each once, by rising numbers.
    pub fn live(&self) -> Live<'_>
        ensures { result ≡ (surface_of self.now).live }
    {
        Live::of(self)
    }

    /// Returns true if the place, below [`Mesh::places`], has a facet.
    pub fn is_live(&self, f: FacetNo) -> bool
        requires { f < length self.now }
        ensures { result ≡ (facet_at self.now f).live }
    {
        self.facets[f.index()].is_live()
    }

    /// Returns a live facet as the mesh stores it.
    fn kept(&self, f: FacetNo) -> Facet
        requires { IsLive self.now f }
        ensures facet { result ≡ facet_at self.now f }
        ensures twins { HasTwins self.now }
    {
        self.facets[f.index()]
    }

    /// Returns the corners of a live facet, counterclockwise seen from outside.
    pub fn facet(&self, f: FacetNo) -> [Id; 3]
        requires { IsLive self.now f }
        ensures { result ≡ (facet_at self.now f).i ∷ (facet_at self.now f).j ∷ (facet_at self.now f).k ∷ [] }
    {
        self.kept(f).corners()
    }

    /// Returns the edge of a live facet that starts at its corner `side`, which is 0, 1 or 2.
    pub fn edge(&self, f: FacetNo, side: usize) -> EdgeNo
        requires facet { IsLive self.now f }
        requires side { side < 3 }
        ensures edge { result ≡ edge_of f (nth_side side) }
        ensures facet { facet_of result ≡ f }
    {
        let _ = &self.facets;
        EdgeNo::of(f, side)
    }

    /// Returns the facet of an edge.
    pub fn facet_of(&self, e: EdgeNo) -> FacetNo
        ensures { result ≡ facet_of e }
    {
        e.facet()
    }

    /// Returns the corner of a live facet that is opposite to one of its edges.
    pub fn opposite(&self, e: EdgeNo) -> Id
        requires { IsLive self.now (facet_of e) }
        ensures { result ≡ rest (surface_of self.now) (facet_of e) (side_of_edge e) }
    {
        let [first, second, third] = self.facet(e.facet());
        match e.side() {
            0 => third,
            1 => first,
            _ => second,
        }
    }

    /// Returns the ids at which an edge of a live facet starts and ends.
    pub fn ends(&self, e: EdgeNo) -> (Id, Id)
        requires { IsLive self.now (facet_of e) }
        ensures from { result.0 ≡ edge_start self.now e }
        ensures to { result.1 ≡ edge_end self.now e }
    {
        let side = self.kept(e.facet()).side(e.side());
        (Id::new(side.from), Id::new(side.to))
    }

    /// Returns the edge of the neighbour across a side of a live facet: 0, 1 or 2.
    pub fn across(&self, f: FacetNo, side: usize) -> EdgeNo
        requires facet { IsLive self.now f }
        requires side { side < 3 }
        ensures twin { result ≡ twin_of self.now (edge_of f (nth_side side)) }
        ensures live { IsLive self.now (facet_of result) }
        ensures back { twin_of self.now result ≡ edge_of f (nth_side side) }
        ensures starts { edge_start self.now result ≡ edge_end self.now (edge_of f (nth_side side)) }
        ensures ends { edge_end self.now result ≡ edge_start self.now (edge_of f (nth_side side)) }
    {
        self.kept(f).across(side)
    }

    /// Returns the twin of an edge of a live facet, which belongs to the neighbour.
    pub fn twin(&self, e: EdgeNo) -> EdgeNo
        requires { IsLive self.now (facet_of e) }
        ensures twin { result ≡ twin_of self.now e }
        ensures live { IsLive self.now (facet_of result) }
        ensures back { twin_of self.now result ≡ e }
        ensures starts { edge_start self.now result ≡ edge_end self.now e }
        ensures ends { edge_end self.now result ≡ edge_start self.now e }
    {
        self.across(e.facet(), e.side())
    }

    /// Removes the visible facets and adds the cone from the apex to their horizon. The facets of the cone are listed
    /// in the order of the horizon: the visible facets in their order, and of each the sides 0, 1 and 2 across which a
    /// facet remains.
    ///
    /// `Err` means that a growth was refused: an allocation failed, or the mesh would have more places than 32 bits can
    /// number the half-edges of. Then the mesh is unchanged.
    pub fn replace(
        &mut self,
        alloc: Global,
        pts: &[Point],
        visible: &[FacetNo],
        apex: Id,
    ) -> Result<Vec<FacetNo>, Memory>
        requires { AreFacets self.old visible.now }
        ensures replaced { IfOk result (λ made. IsReplacement self.old self.new visible.now apex made.items) }
        ensures rewired { IfOk result (λ _. (o : Weighted)
            → IsSoundMesh (place pts.now) self.old o → AreVisible (place pts.now) self.old visible.now apex
            → IsRewired (surface_of self.old) (surface_of self.new) (weighted_at (place pts.now)) apex) }
        ensures sound { IfOk result (λ _. (o : Weighted)
            → IsSoundMesh (place pts.now) self.old o → AreVisible (place pts.now) self.old visible.now apex
            → IsSoundMesh (place pts.now) self.new o) }
        ensures closed { IfOk result (λ _. (s t u v : ℕ)
            → IsSoundMesh (place pts.now) self.old (middle_at (place pts.now) s t u v)
            → AreVisible (place pts.now) self.old visible.now apex → IsClosedMesh (place pts.now) self.new) }
        ensures falls { IfOk result (λ _. (s t u v : ℕ)
            → IsSoundMesh (place pts.now) self.old (middle_at (place pts.now) s t u v)
            → AreVisible (place pts.now) self.old visible.now apex → (p : Vector)
            → signed_volume (place pts.now) (triples_of (surface_of self.new)) p
            <ℤ signed_volume (place pts.now) (triples_of (surface_of self.old)) p) }
        ensures places { IfOk result (λ _. length self.new ≡ max (length self.old) (length (surface_of self.new).live)) }
        ensures memory { OnErr result (self.new ≡ self.old) }
    {
        let Ok(()) = make_room(
            &mut self.facets,
            &mut self.free,
            &mut self.scratch,
            pts.len(),
            visible.len(),
        ) else {
            return Err(Memory);
        };
        rebuild(
            &mut self.facets,
            &mut self.free,
            &mut self.scratch,
            visible,
            apex.number(),
        );
        Ok(mem::replace(&mut self.scratch.made, Vec::new(alloc)))
    }

    /// Takes over the memory of a list of facets, such as one that [`Mesh::replace`] returned, so that its next list
    /// needs no new memory. The surface is unchanged.
    pub fn take_room(&mut self, list: Vec<FacetNo>)
        ensures { self.new ≡ self.old }
    {
        self.scratch.made = list;
    }

    /// Replaces the corners, which are positions of a list, by its ids: corner l becomes the id at position l. A corner
    /// past the end of the list is unchanged.
    pub fn name_corners(&mut self, ids: &[Id])
        ensures { self.new ≡ map (named_facet (name_in ids.now)) self.old }
    {
        name_all(&mut self.facets, ids);
    }
}
