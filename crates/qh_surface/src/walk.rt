//! A walk over twins: the connected facets of a mesh that pass a test.
//!
//! From a facet that passes, a walk across the sides of the facets found reaches all of them.
//!
//! Source: Barber, Dobkin and Huhdanpaa 1996 (the visible set is found by a search over neighbours).
ghost use Rattle.std.specs.Prelude.{◌≡◌, ◌≤◌, ◌<◌, ◌+◌, ◌↔◌, IsTrue, ℕ, List, OnOk, length, false, vec_len, vec_capacity};
ghost use Rattle.qh_model.specs.contract.StoredSurface.{StoredFacet, surface_of};
ghost use Rattle.qh_mesh.specs.contract.Edges.{edge_end, edge_start, facet_of, nth_side, twin_of};
ghost use Rattle.qh_mesh.specs.contract.Replacement.{IsLive};
ghost use Rattle.qh_surface.specs.contract.Walks.{is_set, mark_at, IsMet, IsCrossed, IsFurther, IsWalk, IsWalkFrom};

use qh_mesh::{EdgeNo, FacetNo, Mesh};
use std::alloc::AllocError;

/// The mark of a facet, which keeps a walk from finding it twice.
#[derive(Clone, Copy)]
pub enum FacetMark {
    /// No walk has found the facet yet.
    Unset,
    /// A walk has found it.
    Set,
}

impl FacetMark {
    /// Returns the mark at a place.
    fn at(marks: &[bool], place: usize) -> FacetMark
        requires { place < length marks.now }
        ensures { is_set result ≡ mark_at marks.now place }
    {
        if marks[place] {
            FacetMark::Set
        } else {
            FacetMark::Unset
        }
    }

    /// Returns true if it is set.
    pub fn is_set(self) -> bool
        ensures { result ≡ is_set self }
    {
        match self {
            FacetMark::Unset => false,
            FacetMark::Set => true,
        }
    }
}

/// A side of a facet.
#[derive(Clone, Copy)]
struct Side {
    facet: FacetNo,
    /// The number of the side: 0, 1 or 2.
    number: usize,
}

impl Side {
    /// Returns the side of a facet with this number.
    fn new(facet: FacetNo, number: usize) -> Side
        ensures facet { result.facet ≡ facet }
        ensures number { result.number ≡ number }
    {
        Side { facet, number }
    }
}

/// A test of the next facet of a walk.
pub trait FacetPredicate {
    // Precondition of the test on a mesh.
    ghost Fits: { Self → List StoredFacet → Type 0 };

    // The facet at a place passes the test.
    ghost Passes: { Self → List StoredFacet → ℕ → Type 0 };

    /// Returns true if the facet of an edge passes. Precondition: the facet across the edge passes.
    fn passes(&self, mesh: &Mesh, edge: EdgeNo) -> bool
        requires fits { Self.Fits self.now mesh.now }
        requires live { IsLive mesh.now (facet_of edge) }
        requires over { Self.Passes self.now mesh.now (facet_of (twin_of mesh.now edge)) }
        requires starts { edge_start mesh.now edge ≡ edge_end mesh.now (twin_of mesh.now edge) }
        requires ends { edge_end mesh.now edge ≡ edge_start mesh.now (twin_of mesh.now edge) }
        ensures { IsTrue result ↔ Self.Passes self.now mesh.now (facet_of edge) };

    /// Returns true if a walk enters the facet of an edge: it has no mark yet and passes. A cheap test runs for marked
    /// facets, too, since a branch on the mark cannot be predicted.
    fn enters(&self, mesh: &Mesh, edge: EdgeNo, mark: FacetMark) -> bool
        requires fits { Self.Fits self.now mesh.now }
        requires live { IsLive mesh.now (facet_of edge) }
        requires over { Self.Passes self.now mesh.now (facet_of (twin_of mesh.now edge)) }
        requires starts { edge_start mesh.now edge ≡ edge_end mesh.now (twin_of mesh.now edge) }
        requires ends { edge_end mesh.now edge ≡ edge_start mesh.now (twin_of mesh.now edge) }
        ensures { IsTrue result ↔ ((is_set mark ≡ false) × Self.Passes self.now mesh.now (facet_of edge)) }
    {
        !mark.is_set() && self.passes(mesh, edge)
    }
}

/// Crosses a side of a facet that was found: the neighbour is found too if it passes and has no mark. It is pushed,
/// then popped if it does not pass; this keeps the loop free of branches.
fn cross<T: FacetPredicate>(
    mesh: &Mesh,
    test: &T,
    side: Side,
    marks: &mut [bool],
    found: &mut Vec<FacetNo>,
)
    requires fits { T.Fits test.now mesh.now }
    requires live { IsLive mesh.now side.facet }
    requires side { side.number < 3 }
    requires passes { T.Passes test.now mesh.now side.facet }
    requires marks { length mesh.now ≤ length marks.old }
    requires room { vec_len found.old < vec_capacity found.old }
    requires walk { IsWalk (T.Passes test.now mesh.now) mesh.now marks.old found.old.items }
    ensures walk { IsWalk (T.Passes test.now mesh.now) mesh.now marks.new found.new.items }
    ensures further { IsFurther marks.old marks.new found.old.items found.new.items }
    ensures crossed { IsMet (T.Passes test.now mesh.now) marks.new ((surface_of mesh.now).over side.facet (nth_side side.number)) }
    ensures len { vec_len found.new ≤ vec_len found.old + 1 }
    ensures capacity { vec_capacity found.new ≡ vec_capacity found.old }
{
    let twin = mesh.across(side.facet, side.number);
    let neighbour = mesh.facet_of(twin);
    let place = neighbour.index();
    let is_entered = test.enters(mesh, twin, FacetMark::at(marks, place));
    marks[place] |= is_entered;
    found.push_reserved(neighbour);
    if !is_entered {
        let _ = found.take_last();
    }
}

/// Crosses the three sides of a facet that was found.
fn cross_all<T: FacetPredicate>(
    mesh: &Mesh,
    test: &T,
    f: FacetNo,
    marks: &mut [bool],
    found: &mut Vec<FacetNo>,
) -> Result<(), AllocError>
    requires fits { T.Fits test.now mesh.now }
    requires live { IsLive mesh.now f }
    requires passes { T.Passes test.now mesh.now f }
    requires room { length mesh.now ≤ length marks.old }
    requires walk { IsWalk (T.Passes test.now mesh.now) mesh.now marks.old found.old.items }
    ensures walk { OnOk result (IsWalk (T.Passes test.now mesh.now) mesh.now marks.new found.new.items) }
    ensures further { OnOk result (IsFurther marks.old marks.new found.old.items found.new.items) }
    ensures crossed { OnOk result (IsCrossed (T.Passes test.now mesh.now) mesh.now marks.new f) }
{
    found.reserve(3)?;
    cross(mesh, test, Side::new(f, 0), marks, found);
    cross(mesh, test, Side::new(f, 1), marks, found);
    cross(mesh, test, Side::new(f, 2), marks, found);
    Ok(())
}

/// Lists and marks the facets that a walk from `start` finds, `start` first: those that pass the test and are connected
/// to it over twins. Marked facets are not entered. The list is cleared first. There is a mark for each place of the
/// mesh.
///
/// Returns `Err` if an allocation failed. The list and the marks are not specified then.
pub fn walk<T: FacetPredicate>(
    mesh: &Mesh,
    test: &T,
    start: FacetNo,
    marks: &mut [bool],
    found: &mut Vec<FacetNo>,
) -> Result<(), AllocError>
    requires fits { T.Fits test.now mesh.now }
    requires live { IsLive mesh.now start }
    requires passes { T.Passes test.now mesh.now start }
    requires fresh { mark_at marks.old start ≡ false }
    requires room { length mesh.now ≤ length marks.old }
    ensures { OnOk result (IsWalkFrom (T.Passes test.now mesh.now) mesh.now marks.old marks.new start found.new.items) }
{
    found.clear();
    let place = start.index();
    marks[place] = true;
    found.push(start)?;
    let mut next = 0;
    while next < found.len() {
        cross_all(mesh, test, found[next], marks, found)?;
        next += 1;
    }
    Ok(())
}
