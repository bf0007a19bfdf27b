//! The facets that a point sees. They are connected, so a walk from one of them finds all.
ghost use Rattle.std.specs.Prelude.{All, ◌≡◌, ◌≤◌, ◌<◌, ◌<ℤ◌, pos, ℕ, OnOk, length, [], true, false};
ghost use Rattle.qh_model.specs.{contract.Weighted.Weighted, headline.Sets.In, headline.Vector.Vector};
ghost use Rattle.qh_mesh.specs.contract.Replacement.{IsLive, AreFacets};
ghost use Rattle.qh_mesh.specs.contract.SoundMesh.{IsSoundMesh, AreVisible};
ghost use Rattle.qh_pred.specs.contract.Planes.{height};
ghost use Rattle.qh_surface.specs.contract.Walks.{IsMarked, mark_at};
ghost use Rattle.qh_surface.specs.steps.Planes.{plane_at, ArePlanes};

use crate::walk::{FacetMark, FacetPredicate, walk};
use qh_mesh::{EdgeNo, FacetNo, Mesh};
use qh_model::{Memory, Point};
use qh_pred::Plane;
use std::alloc::{AllocError, Global};
use std::marker::Model;

/// The facet predicate that the apex, a point, sees a facet. `planes` has the planes of the facets, by place.
#[derive(Clone, Copy, Drop)]
struct Sees<'a> {
    planes: &'a [Plane],
    apex: Point,
}

impl FacetPredicate for Sees<'_> {
    ghost Fits = { λ t fs. length fs ≤ length t.planes.now };

    ghost Passes = { λ t fs f. pos 0 <ℤ height (plane_at t.planes.now f) t.apex };

    fn passes(&self, mesh: &Mesh, edge: EdgeNo) -> bool {
        self.planes[mesh.facet_of(edge).index()].sees(self.apex)
    }

    // Free of branches on the mark.
    fn enters(&self, mesh: &Mesh, edge: EdgeNo, mark: FacetMark) -> bool {
        !mark.is_set() & self.passes(mesh, edge)
    }
}

/// A walk over the facets that a point sees. It keeps its memory from round to round.
///
/// A contract sees the facets that the last walk found.
#[derive(Drop)]
pub struct Walk {
    /// Marks of facets, by place, used during a walk.
    marks: Vec<bool>,
    /// The facets that the walk found, in the order in which it reached them.
    found: Vec<FacetNo>,
}

impl Model for Walk {
    ghost use Rattle.std.specs.Prelude.{List, ℕ, ◌≡◌, false};
    ghost use Rattle.qh_surface.specs.contract.Walks.{mark_at};

    ghost Value = { List ℕ };

    ghost view = { λ w. w.found.items };

    ghost invariant = { λ w. (f : ℕ) → mark_at w.marks.items f ≡ false };
}

/// Reserves marks for `places` places.
fn make_room(marks: &mut Vec<bool>, places: usize) -> Result<(), AllocError>
    ensures same { (f : ℕ) → mark_at marks.new.items f ≡ mark_at marks.old.items f }
    ensures room { OnOk result (places ≤ length marks.new.items) }
{
    if marks.len() < places {
        marks.resize(places, false)?;
    }
    Ok(())
}

/// Clears the marks of the facets found. No other facet has a mark.
fn unmark(marks: &mut [bool], found: &[FacetNo])
    requires only { (f : ℕ) → mark_at marks.old f ≡ true → In f found.now }
    requires marked { All (IsMarked marks.old) found.now }
    ensures { (f : ℕ) → mark_at marks.new f ≡ false }
{
    for f in found {
        marks[f.index()] = false;
    }
}

impl Walk {
    /// Creates a walk that has found no facet yet. It allocates no memory.
    pub fn new(alloc: Global) -> Walk
        ensures { result ≡ [] }
    {
        Walk {
            marks: Vec::new(alloc),
            found: Vec::new(alloc),
        }
    }

    /// Finds the facets that a point, the apex, sees, starting from one of them. The planes are those of the facets, by
    /// place.
    ///
    /// Returns `Err` if an allocation failed. The facets found then are not specified.
    pub fn find(
        &mut self,
        mesh: &Mesh,
        planes: &[Plane],
        start: FacetNo,
        apex: Point,
    ) -> Result<(), Memory>
        requires live { IsLive mesh.now start }
        requires room { length mesh.now ≤ length planes.now }
        requires sees { pos 0 <ℤ height (plane_at planes.now start) apex }
        ensures facets { OnOk result (AreFacets mesh.now self.new) }

        // If the mesh is sound and the planes are those of its facets, the found facets are exactly those that the apex
        // sees.
        ensures visible { OnOk result ((at : ℕ → Vector) (o : Weighted) (l : ℕ) → at l ≡ apex
            → ArePlanes at mesh.now planes.now → IsSoundMesh at mesh.now o → AreVisible at mesh.now self.new l) }
    {
        make_room(&mut self.marks, planes.len())?;
        let sees = Sees { planes, apex };
        let Ok(()) = walk(mesh, &sees, start, &mut self.marks, &mut self.found) else {
            self.marks.clear();
            return Err(Memory);
        };
        unmark(&mut self.marks, &self.found);
        Ok(())
    }

    /// Returns the facets that the last call of [`Walk::find`] found, each once.
    pub fn visible(&self) -> &[FacetNo]
        ensures { result.now ≡ self.now }
    {
        self.found.as_slice()
    }
}
