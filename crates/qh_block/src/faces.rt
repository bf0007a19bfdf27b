//! The faces of a solid, gathered plane by plane from the facets of its finished mesh.
//!
//! Each live facet without a mark starts a walk over the facets in its plane, which marks them. If a plane has one
//! facet, as most do, its corners are the face. Otherwise the face is the polygon of the corners of the facets, sorted.
//! So each plane is walked once.
ghost use Rattle.std.specs.Prelude.{All, ◌≡◌, ◌≤◌, ◌<◌, ◌↔◌, ◌++◌, ℕ, List, IfOk, OnOk, length, true, false};
ghost use Rattle.std.specs.List.Sorted.{IsStrictlyIncreasing};
ghost use Rattle.qh_model.specs.contract.{IdSets.IsIdSet, IdSets.AreIndices, ClosedPolygons.AreClosed};
ghost use Rattle.qh_model.specs.contract.{FinishedSurface.IsFinished, StoredSurface.facet_at, StoredSurface.surface_of};
ghost use Rattle.qh_model.specs.headline.{Extreme.Extreme, Polygon.IsPolygon, Polygons.IsFacePolygon};
ghost use Rattle.qh_model.specs.headline.{Predicates.cross, Predicates.place, Sets.In, Sets.Members};
ghost use Rattle.qh_mesh.specs.contract.Replacement.{IsLive};
ghost use Rattle.qh_polygon.specs.contract.PlanarSets.{IsPlanarSet};
ghost use Rattle.qh_surface.specs.contract.{NamedMeshes.named, NamedMeshes.IsNamedMesh, Corners.AreCornersBelow};
ghost use Rattle.qh_surface.specs.contract.Walks.{mark_at};
ghost use Rattle.qh_block.specs.contract.MarkedFaces.{AreFacesOfMarked};
ghost use Rattle.qh_block.specs.steps.Faces.{corners_of, from_least, IsListedCorner, IsNewPlane, IsNewFace};
ghost use Rattle.qh_block.specs.steps.Faces.{AreFacetFaces};

use crate::plane_walk::IsLevel;
use qh_bodies::UnsortedFaces;
use qh_mesh::FacetNo;
use qh_model::{Id, Memory, Point, Polygon};
use qh_polygon::polygon;
use qh_pred::{cross, point_at};
use qh_surface::walk::walk;
use qh_surface::{NamedMesh, plane_of};
use std::alloc::{AllocError, Global};

/// Scratch for live facets of a plane and for their corners, reused from plane to plane.
#[derive(Drop)]
pub struct Scratch {
    facets: Vec<FacetNo>,
    corners: Vec<Id>,
}

/// Returns `count` cleared marks.
fn no_marks(alloc: Global, count: usize) -> Result<Vec<bool>, AllocError>
    ensures none { IfOk result (λ v. (f : ℕ) → mark_at v.items f ≡ false) }
    ensures len { IfOk result (λ v. length v.items ≡ count) }
{
    vec![in alloc; false; count]
}

impl Scratch {
    /// Creates a scratch without allocating memory.
    fn new(alloc: Global) -> Scratch {
        Scratch {
            facets: Vec::new(alloc),
            corners: Vec::new(alloc),
        }
    }

    /// Lists the corners of the facets, facet by facet.
    fn list_corners(&mut self, surface: &NamedMesh) -> Result<(), AllocError>
        requires positions { AreCornersBelow (length surface.now.ids.items) surface.now.mesh }
        requires live { All (IsLive surface.now.mesh) self.old.facets.items }
        ensures { OnOk result (self.new.corners.items ≡ corners_of (named surface.now) self.old.facets.items) }
    {
        let Scratch { facets, corners } = self;
        corners.clear();
        for f in facets.iter() {
            corners.extend_from_slice(&surface.corners(*f))?;
        }
        Ok(())
    }

    /// Lists the corners of the facets, rising, each once.
    fn gather_corners(&mut self, surface: &NamedMesh) -> Result<(), AllocError>
        requires positions { AreCornersBelow (length surface.now.ids.items) surface.now.mesh }
        requires live { All (IsLive surface.now.mesh) self.old.facets.items }
        ensures rising { OnOk result (IsStrictlyIncreasing self.new.corners.items) }
        ensures members { OnOk result ((i : ℕ) → In i self.new.corners.items ↔ IsListedCorner (named surface.now) self.old.facets.items i) }
    {
        self.list_corners(surface)?;
        self.corners.sort_unstable();
        self.corners.dedup();
        Ok(())
    }
}

/// Returns the polygon of ids in the plane of a live facet, seen from its outer side.
fn facet_polygon(
    alloc: Global,
    pts: &[Point],
    surface: &NamedMesh,
    f: FacetNo,
    ids: &[Id],
) -> Result<Polygon, Memory>
    requires named { IsNamedMesh pts.now surface.now }
    requires live { IsLive surface.now.mesh f }
    requires indices { AreIndices pts.now ids.now }
    ensures { let t = facet_at (named surface.now) f in let n = cross (place pts.now t.i) (place pts.now t.j) (place pts.now t.k) in
        IfOk result (λ q. IsPlanarSet pts.now ids.now n → IsPolygon (place pts.now) (Extreme (place pts.now) (Members ids.now)) n q) }
{
    let [a, b, c] = surface.corners(f);
    let normal = cross(point_at(pts, a), point_at(pts, b), point_at(pts, c));
    polygon(alloc, pts, ids, &normal)
}

/// Returns the corners of a live facet, beginning with the least.
fn lone_triangle(surface: &NamedMesh, f: FacetNo) -> Polygon
    requires positions { AreCornersBelow (length surface.now.ids.items) surface.now.mesh }
    requires live { IsLive surface.now.mesh f }
    ensures { let t = facet_at (named surface.now) f in result ≡ from_least t.i t.j t.k }
{
    let [a, b, c] = surface.corners(f);
    if a < b && a < c {
        Polygon::triangle(a, b, c)
    } else if b < c {
        Polygon::triangle(b, c, a)
    } else {
        Polygon::triangle(c, a, b)
    }
}

/// Returns the polygon of the plane of a live facet without a mark, and marks the facets in that plane.
fn new_face(
    alloc: Global,
    pts: &[Point],
    surface: &NamedMesh,
    f: FacetNo,
    marks: &mut [bool],
    room: &mut Scratch,
) -> Result<Polygon, Memory>
    requires named { IsNamedMesh pts.now surface.now }
    requires live { IsLive surface.now.mesh f }
    requires fresh { mark_at marks.old f ≡ false }
    requires room { length surface.now.mesh ≤ length marks.old }
    ensures kept { OnOk result ((g : ℕ) → mark_at marks.old g ≡ true → mark_at marks.new g ≡ true) }
    ensures own { OnOk result (mark_at marks.new f ≡ true) }
    ensures face { let fs = named surface.now in
        IfOk result (λ q. (ids : List ℕ) → IsIdSet pts.now ids → IsFinished (place pts.now) ids (surface_of fs)
        → IsNewPlane (place pts.now) fs marks.old f → IsNewFace (place pts.now) (Members ids) fs f marks.old marks.new q) }
{
    let level = IsLevel {
        pts: &surface.points,
        start: f,
        plane: plane_of(&surface.points, &surface.mesh, f),
    };
    walk(&surface.mesh, &level, f, marks, &mut room.facets)?;
    // Most planes have one facet, whose corners are the face.
    if room.facets.len() == 1 {
        return Ok(lone_triangle(surface, f));
    }
    room.gather_corners(surface)?;
    facet_polygon(alloc, pts, surface, f, &room.corners)
}

/// Returns the faces of a finished mesh, one for each plane of its live facets.
pub(crate) fn faces(
    alloc: Global,
    pts: &[Point],
    surface: &NamedMesh,
) -> Result<UnsortedFaces, Memory>
    requires { IsNamedMesh pts.now surface.now }
    ensures { let fs = named surface.now in
        IfOk result (λ v. (ids : List ℕ) → IsIdSet pts.now ids → IsFinished (place pts.now) ids (surface_of fs)
        → AreFacetFaces (place pts.now) (Members ids) fs v) }
{
    let mut places = no_marks(alloc, surface.mesh.places())?;
    let marks = places.as_mut_slice();
    let mut room = Scratch::new(alloc);
    let mut faces = UnsortedFaces::none(alloc);
    for f in surface.mesh.live() {
        if !marks[f.index()] {
            faces.push(new_face(alloc, pts, surface, f, marks, &mut room)?)?;
        }
    }
    Ok(faces)
}

/// The faces of a finished mesh in two unsorted lists, with one face for each plane of its live facets.
#[derive(Drop)]
pub struct PartedFaces {
    /// The faces of chosen facets.
    pub chosen: UnsortedFaces,
    /// The other faces.
    pub others: Vec<Polygon>,
}

/// Returns the faces of a finished mesh, with those of chosen facets in a list of their own. For each place of the
/// mesh, `chosen` is true if its facet is chosen. If only some facets of a plane are chosen, its face is in one of the
/// lists.
///
/// # Errors
///
/// `Memory` if an allocation failed.
pub fn parted_faces(
    alloc: Global,
    pts: &[Point],
    surface: &NamedMesh,
    chosen: &[bool],
) -> Result<PartedFaces, Memory>
    requires named { IsNamedMesh pts.now surface.now }
    requires marks { length surface.now.mesh ≡ length chosen.now }
    ensures each { let fs = named surface.now in let t = facet_at fs in
        IfOk result (λ v. (ids : List ℕ) → IsIdSet pts.now ids → IsFinished (place pts.now) ids (surface_of fs)
        → (f : ℕ) → IsLive fs f
        → (q : List ℕ) × In q (v.chosen ++ v.others.items) × IsFacePolygon (place pts.now) (Members ids) (t f).i (t f).j (t f).k q) }
    ensures chosen { let fs = named surface.now in
        IfOk result (λ v. (ids : List ℕ) → IsIdSet pts.now ids → IsFinished (place pts.now) ids (surface_of fs)
        → AreFacesOfMarked (place pts.now) (Members ids) fs chosen.now true v.chosen) }
    ensures others { let fs = named surface.now in
        IfOk result (λ v. (ids : List ℕ) → IsIdSet pts.now ids → IsFinished (place pts.now) ids (surface_of fs)
        → AreFacesOfMarked (place pts.now) (Members ids) fs chosen.now false v.others.items) }
    ensures closed { let fs = named surface.now in
        IfOk result (λ v. (ids : List ℕ) → IsIdSet pts.now ids → IsFinished (place pts.now) ids (surface_of fs)
        → AreClosed (v.chosen ++ v.others.items)) }
{
    let mut places = no_marks(alloc, surface.mesh.places())?;
    let marks = places.as_mut_slice();
    let mut room = Scratch::new(alloc);
    let mut own = UnsortedFaces::none(alloc);
    let mut others = Vec::new(alloc);
    for f in surface.mesh.live() {
        if !marks[f.index()] {
            let face = new_face(alloc, pts, surface, f, marks, &mut room)?;
            if chosen[f.index()] {
                own.push(face)?;
            } else {
                others.push(face)?;
            }
        }
    }
    Ok(PartedFaces {
        chosen: own,
        others,
    })
}
