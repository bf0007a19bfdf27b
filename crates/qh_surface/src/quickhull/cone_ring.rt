//! The facets of a large cone in a ring round its apex.
//!
//! Neighbouring facets of a cone meet in an edge from the apex, so a walk over these edges meets all facets. In that
//! order a search can find the one facet to test a point against (`cone_search`). The ring begins where the cone is
//! strictly convex.
ghost use Rattle.std.specs.Prelude.{All, ◌≡◌, ◌<◌, length, OnOk, []};
ghost use Rattle.qh_model.specs.{contract.StoredSurface.facet_at, contract.Surface.Side.second, headline.Sets.In};
ghost use Rattle.qh_model.specs.headline.Predicates.{place};
ghost use Rattle.qh_mesh.specs.contract.{Edges.edge_of, Edges.facet_of, Edges.twin_of, Replacement.IsLive};
ghost use Rattle.qh_surface.specs.{contract.Corners.AreCornersBelow, steps.Planes.plane_at, steps.Runs.IsPlaneOf};
ghost use Rattle.qh_surface.specs.steps.Cones.{HasNoCornerAbove, IsFan, AreWedges, apex_of};

use qh_mesh::{FacetNo, Mesh};
use qh_model::{Memory, Point};
use qh_pred::{Plane, point_at};
use std::alloc::{AllocError, Global};

/// The greatest number of facets of a cone that are tested one by one. A larger cone is searched.
pub const SCANNED: usize = 16;

/// A facet of a cone, between two rays from the apex.
#[derive(Clone, Copy, Drop)]
pub struct Wedge {
    /// Its number.
    pub facet: FacetNo,
    /// Its plane.
    pub plane: Plane,
    /// The corner of the ray at which the wedge begins.
    pub from: Point,
    /// The corner of the ray at which the wedge ends and the next one begins.
    pub to: Point,
}

/// The ring of a large cone. It keeps its memory from round to round. The ring of a small cone is empty.
#[derive(Drop)]
pub struct ConeRing {
    /// The corner that the facets share.
    pub apex: Point,
    /// The facets, each followed by its neighbour across the ray at which it ends.
    pub wedges: Vec<Wedge>,
    /// The index of a wedge that has the first ray strictly below its plane.
    pub opposite: usize,
}

/// Returns the neighbour of a facet across the ray at which the facet ends.
fn next_facet(mesh: &Mesh, facet: FacetNo) -> FacetNo
    requires { IsLive mesh.now facet }
    ensures { result ≡ facet_of (twin_of mesh.now (edge_of facet second)) }
{
    mesh.facet_of(mesh.twin(mesh.edge(facet, 1)))
}

/// Returns the wedge of a facet.
fn wedge_of(pts: &[Point], mesh: &Mesh, planes: &[Plane], facet: FacetNo) -> Wedge
    requires live { IsLive mesh.now facet }
    requires corners { AreCornersBelow (length pts.now) mesh.now }
    requires plane { facet < length planes.now }
    ensures facet { result.facet ≡ facet }
    ensures plane { result.plane ≡ plane_at planes.now facet }
    ensures from { result.from ≡ place pts.now (facet_at mesh.now facet).i }
    ensures to { result.to ≡ place pts.now (facet_at mesh.now facet).j }
{
    let [from, to, _] = mesh.facet(facet);
    Wedge {
        facet,
        plane: planes[facet.index()],
        from: point_at(pts, from),
        to: point_at(pts, to),
    }
}

/// Returns a facet where the cone is strictly convex: the ray before it is strictly below its plane. There is one,
/// since no plane contains all rays of a cone.
fn first_facet(pts: &[Point], mesh: &Mesh, planes: &[Plane], made: &[FacetNo]) -> FacetNo
    requires some { 0 < length made.now }
    requires live { All (IsLive mesh.now) made.now }
    requires corners { AreCornersBelow (length pts.now) mesh.now }
    requires planes { All (λ f. f < length planes.now) made.now }
    requires fan { IsFan mesh.now made.now }
    ensures { In result made.now }
{
    let mut before = wedge_of(pts, mesh, planes, made[0]);
    for _ in 0..made.len() {
        let wedge = wedge_of(pts, mesh, planes, next_facet(mesh, before.facet));
        if wedge.plane.height(before.from) < 0 {
            return wedge.facet;
        }
        before = wedge;
    }
    before.facet
}

/// Appends the wedges of the new facets, each after its neighbour, beginning where the cone is strictly convex.
fn go_round(
    wedges: &mut Vec<Wedge>,
    pts: &[Point],
    mesh: &Mesh,
    planes: &[Plane],
    made: &[FacetNo],
) -> Result<(), AllocError>
    requires some { 0 < length made.now }
    requires live { All (IsLive mesh.now) made.now }
    requires corners { AreCornersBelow (length pts.now) mesh.now }
    requires below { HasNoCornerAbove pts.now mesh.now }
    requires planes { All (IsPlaneOf pts.now mesh.now planes.now) made.now }
    requires fan { IsFan mesh.now made.now }
    requires empty { wedges.old.items ≡ [] }
    ensures { OnOk result (AreWedges planes.now made.now (apex_of pts.now mesh.now made.now) wedges.new.items) }
{
    let mut facet = first_facet(pts, mesh, planes, made);
    for _ in 0..made.len() {
        wedges.push(wedge_of(pts, mesh, planes, facet))?;
        facet = next_facet(mesh, facet);
    }
    Ok(())
}

/// Returns the index of a wedge that has the first ray strictly below its plane, or 0 if there is no such wedge.
pub fn opposite_of(wedges: &[Wedge]) -> usize {
    for place in 1..wedges.len() {
        if wedges[place].plane.height(wedges[0].from) < 0 {
            return place;
        }
    }
    0
}

impl ConeRing {
    /// Creates a ring without wedges. It allocates no memory.
    pub fn new(alloc: Global) -> ConeRing
        ensures { result.wedges.items ≡ [] }
    {
        ConeRing {
            apex: Point::new(0, 0, 0),
            wedges: Vec::new(alloc),
            opposite: 0,
        }
    }

    /// Reserves memory for `wedges` wedges; nothing else changes.
    ///
    /// Returns `Err` if an allocation failed.
    pub fn reserve(&mut self, wedges: usize) -> Result<(), Memory>
        ensures { self.new.wedges.items ≡ self.old.wedges.items }
    {
        self.wedges.reserve(wedges)?;
        Ok(())
    }

    /// Stores the new facets if there are more than [`SCANNED`], and otherwise no facet.
    ///
    /// Returns `Err` if an allocation failed.
    pub fn take(
        &mut self,
        pts: &[Point],
        mesh: &Mesh,
        planes: &[Plane],
        made: &[FacetNo],
    ) -> Result<(), Memory>
        requires live { All (IsLive mesh.now) made.now }
        requires corners { AreCornersBelow (length pts.now) mesh.now }
        requires below { HasNoCornerAbove pts.now mesh.now }
        requires planes { All (IsPlaneOf pts.now mesh.now planes.now) made.now }
        requires fan { SCANNED < length made.now → IsFan mesh.now made.now }
        ensures { OnOk result (AreWedges planes.now made.now self.new.apex self.new.wedges.items) }
    {
        self.wedges.clear();
        if made.len() > SCANNED {
            let [_, _, apex] = mesh.facet(made[0]);
            self.apex = point_at(pts, apex);
            go_round(&mut self.wedges, pts, mesh, planes, made)?;
            self.opposite = opposite_of(self.wedges.as_slice());
        }
        Ok(())
    }
}
