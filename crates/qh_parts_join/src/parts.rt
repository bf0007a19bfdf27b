//! Parts of a set: the finished mesh of some of its ids, and the corners of the mesh.
ghost use Rattle.std.specs.Prelude.{All, ◌≡◌, ◌<◌, ◌⊎◌, ◌↔◌, ℕ, IfOk, IfSome, IsTrue, List, length, true};
ghost use Rattle.std.specs.List.Sorted.{IsStrictlyIncreasing};
ghost use Rattle.qh_model.specs.contract.{IdSets.AreIndices, StoredSurface.surface_of};
ghost use Rattle.qh_model.specs.headline.{Predicates.place, Sets.In, Sets.Once};
ghost use Rattle.qh_model.specs.laws.CompletenessLaws.{IsLiveCorner};
ghost use Rattle.qh_surface.specs.contract.{Corners.AreCornersBelow, NamedMeshes.named, Simplexes.IsSimplexOf};
ghost use Rattle.qh_surface.specs.contract.Walks.{mark_at};
ghost use Rattle.qh_parts_join.specs.contract.Parts.{IsPartOf};

use qh_mesh::FacetNo;
use qh_model::{Id, Memory, Point};
use qh_places::{Outward, Places};
use qh_polygon::rising_ids;
use qh_pred::{point_at, vol};
use qh_surface::starts::Simplex;
use qh_surface::{NamedMesh, surface_along};
use std::alloc::{AllocError, Global};

/// A part of a set, with its finished mesh.
#[derive(Drop)]
pub struct Part {
    /// The ids of the part, rising.
    pub ids: Vec<Id>,
    /// Their finished mesh.
    pub surface: NamedMesh,
    /// The corners of the mesh that are not shared ids, in the order in which the ids were listed.
    pub own: Vec<Id>,
    /// The points of these corners, by blocks.
    pub places: Places,
}

/// Returns the first four of the shared ids, if their points do not lie in one plane.
fn simplex_of(pts: &[Point], shared: &[Id]) -> Option<Simplex>
    requires { AreIndices pts.now shared.now }
    ensures { IfSome result (λ s. (ids : List ℕ) → ((l : ℕ) → In l shared.now → In l ids) → IsSimplexOf pts.now ids s) }
{
    let [i, j, k, l, ..] = shared else {
        return None;
    };
    let (a, b) = (point_at(pts, *i), point_at(pts, *j));
    let (c, d) = (point_at(pts, *k), point_at(pts, *l));
    if vol(a, b, c, d) == 0 {
        return None;
    }
    Some(Simplex {
        i: *i,
        j: *j,
        k: *k,
        l: *l,
    })
}

/// Returns the ids that are not shared in their order, then the shared ones, each once. If an id that is not shared is
/// listed twice, the ids rise instead. `rising` has the same ids.
fn each_once(
    alloc: Global,
    unshared: &[Id],
    shared: &[Id],
    rising: &[Id],
) -> Result<Vec<Id>, AllocError>
    requires rising { IsStrictlyIncreasing rising.now }
    requires all { (l : ℕ) → In l rising.now → In l unshared.now ⊎ In l shared.now }
    requires unshared { (l : ℕ) → In l unshared.now → In l rising.now }
    requires shared { (l : ℕ) → In l shared.now → In l rising.now }
    ensures once { IfOk result (λ v. Once v.items) }
    ensures same { IfOk result (λ v. (l : ℕ) → In l v.items ↔ In l rising.now) }
{
    let mut ids = Vec::from_slice(alloc, unshared)?;
    ids.extend_from_slice(shared)?;
    if ids.len() > rising.len() {
        return Vec::from_slice(alloc, rising);
    }
    Ok(ids)
}

/// Returns the ids of a list that are not in another, in their order.
fn without(alloc: Global, ids: &[Id], others: &[Id]) -> Result<Vec<Id>, AllocError>
    ensures all { IfOk result (λ v. (l : ℕ) → In l ids.now → In l v.items ⊎ In l others.now) }
    ensures only { IfOk result (λ v. (l : ℕ) → In l v.items → In l ids.now) }
{
    let mut left = Vec::new(alloc);
    for id in ids {
        if !has(others, *id) {
            left.push(*id)?;
        }
    }
    Ok(left)
}

/// Of this many facets one contributes to the outward directions, which are needed for groups of corners alone.
const FACING_SHARE: usize = 4;

/// Returns the outward direction at each position of a mesh, computed from some of the facets that begin there. No
/// answer depends on it.
fn ways_out(alloc: Global, surface: &NamedMesh) -> Result<Vec<Outward>, AllocError> {
    let points = &surface.points;
    let mut ways = vec![in alloc; Outward::NONE; points.len()]?;
    for place in (0..surface.mesh.places()).step_by(FACING_SHARE) {
        let f = FacetNo::new(place);
        if surface.mesh.is_live(f) {
            let [i, j, k] = surface.mesh.facet(f);
            let corners = (
                points.get(i.index()),
                points.get(j.index()),
                points.get(k.index()),
            );
            if let (Some(a), Some(b), Some(c)) = corners {
                if let Some(way) = ways.get_mut(i.index()) {
                    *way = way.plus(Outward::of_triangle(*a, *b, *c));
                }
            }
        }
    }
    Ok(ways)
}

/// Returns the outward directions at those ids of a mesh that are in a list, in the same order. No answer depends on
/// it.
fn outward_of(alloc: Global, surface: &NamedMesh, own: &[Id]) -> Result<Vec<Outward>, AllocError> {
    let ways = ways_out(alloc, surface)?;
    let mut outward = Vec::with_capacity(alloc, own.len())?;
    for position in 0..surface.ids.len().min(ways.len()) {
        if own.get(outward.len()) == Some(&surface.ids[position]) {
            outward.push(ways[position])?;
        }
    }
    Ok(outward)
}

/// Sets the marks of ids.
fn set_marks(marks: &mut Vec<bool>, ids: &[Id])
    requires { All (λ i. i < length marks.now.items) ids.now }
    ensures len { length marks.new.items ≡ length marks.old.items }
    ensures set { (l : ℕ) → In l ids.now → mark_at marks.new.items l ≡ true }
    ensures kept { (l : ℕ) → mark_at marks.old.items l ≡ true → mark_at marks.new.items l ≡ true }
{
    for id in ids {
        marks[id.index()] = true;
    }
}

/// Returns marks for the first `count` ids, set for the corners of the live facets.
fn corner_marks(alloc: Global, surface: &NamedMesh, count: usize) -> Result<Vec<bool>, AllocError>
    requires corners { AreCornersBelow (length surface.now.ids.items) surface.now.mesh }
    requires count { (l : ℕ) → IsLiveCorner (surface_of (named surface.now)) l → l < count }
    ensures { IfOk result (λ v. (l : ℕ) → IsLiveCorner (surface_of (named surface.now)) l → mark_at v.items l ≡ true) }
{
    let mut marks = vec![in alloc; false; count]?;
    for f in surface.mesh.live() {
        set_marks(&mut marks, &surface.corners(f));
    }
    Ok(marks)
}

/// Returns true if an id is one of a list.
fn has(ids: &[Id], id: Id) -> bool
    ensures { IsTrue result ↔ In id ids.now }
{
    ids.contains(&id)
}

/// Returns true if all ids of `some` are in a list.
pub(crate) fn are_in(some: &[Id], ids: &[Id]) -> bool
    ensures { IsTrue result → (l : ℕ) → In l some.now → In l ids.now }
{
    for id in some {
        if !has(ids, *id) {
            return false;
        }
    }
    true
}

/// Returns true if an id is marked.
fn is_marked(marks: &[bool], id: Id) -> bool
    ensures { mark_at marks.now id ≡ true → IsTrue result }
{
    let Some(marked) = marks.get(id.index()) else {
        return false;
    };
    *marked
}

/// Returns the marked ids of a list, in their order.
fn marked(alloc: Global, ids: &[Id], marks: &[bool]) -> Result<Vec<Id>, AllocError>
    ensures all { IfOk result (λ v. (l : ℕ) → In l ids.now → mark_at marks.now l ≡ true → In l v.items) }
    ensures only { IfOk result (λ v. (l : ℕ) → In l v.items → In l ids.now) }
{
    let mut found = Vec::new(alloc);
    for id in ids {
        if is_marked(marks, *id) {
            found.push(*id)?;
        }
    }
    Ok(found)
}

impl Part {
    /// Returns the part of listed ids, if the shared ids, those of every part, are among them, and the points of the
    /// first four shared ids do not lie in one plane. The contract allows `None` in every case. The ids may have any
    /// order and may repeat. The part is faster if near ids are near each other in the list.
    ///
    /// # Errors
    ///
    /// `Memory` if an allocation failed.
    pub fn of(
        alloc: Global,
        pts: &[Point],
        listed: &[Id],
        shared: &[Id],
    ) -> Result<Option<Part>, Memory>
        requires { AreIndices pts.now listed.now }
        ensures part { IfOk result (λ found. IfSome found (IsPartOf pts.now shared.now)) }
        ensures members { IfOk result (λ found. IfSome found (λ p. (l : ℕ) → In l p.ids.items ↔ In l listed.now)) }
    {
        let ids = rising_ids(alloc, listed)?;
        if ids.len() == 0 || !are_in(shared, &ids) {
            return Ok(None);
        }
        let Some(first) = simplex_of(pts, shared) else {
            return Ok(None);
        };
        let unshared = without(alloc, listed, shared)?;
        let order = each_once(alloc, &unshared, shared, &ids)?;
        let surface = surface_along(alloc, pts, order, first)?;
        let marks = corner_marks(alloc, &surface, pts.len())?;
        let own = marked(alloc, &unshared, &marks)?;
        let outward = outward_of(alloc, &surface, &own)?;
        let places = Places::in_order(alloc, pts, &own, &outward)?;
        Ok(Some(Part {
            ids,
            surface,
            own,
            places,
        }))
    }
}
