//! The ids of a set in a spatial order, with their points and blocks of these.
ghost use Rattle.std.specs.Prelude.{◌≡◌, ◌+◌, ◌<◌, ◌≤◌, ◌↔◌, ◌<ℤ◌, ℕ, List, pos, IfOk, MatchOption, IsTrue, length};
ghost use Rattle.std.specs.{Prelude.map, List.All};
ghost use Rattle.qh_model.specs.{contract.IdSets.AreIndices, headline.Sets.In, headline.Vector.Vector};
ghost use Rattle.qh_model.specs.headline.Predicates.{place};
ghost use Rattle.qh_pred.specs.contract.Planes.{PlaneValue, height};
ghost use Rattle.qh_places.specs.contract.Near.{IsNear};
ghost use Rattle.qh_places.specs.steps.Levels.{IsLevel, AreBelowAll, HasLooked, IsAboveAt};

use crate::boxes::PointBox;
use crate::budget::Budget;
use crate::bundles::Bundle;
use crate::levels::{Level, below_all, below_one, levels_over};
use crate::outward::Outward;
use crate::tangents::Tangent;
use qh_model::{Id, Point};
use qh_pred::{Plane, point_at};
use std::alloc::{AllocError, Global};

/// The number of positions that are tested together: those of a block of the lowest level.
pub(crate) const LEAF: usize = 16;

/// The binary logarithm of `LEAF`.
const LEAF_SHIFT: u32 = 4;

/// The ids of a set in a spatial order, with their points and blocks of these.
#[derive(Drop)]
pub struct Places {
    pub ids: Vec<Id>,
    pub points: Vec<Point>,
    levels: Vec<Level>,
    leaves: Level,
    ghost same: { length points.items ≡ length ids.items },
    ghost blocks: { All (IsLevel points.items) levels.items },
    ghost lowest: { IsLevel points.items leaves },
}

/// The positions of the points that some planes may meet. Planes with similar normals leave few positions.
///
/// The positions are the first `LEAF` ones from each start on. The search examined `looked` blocks. The planes are
/// those of the bundle.
#[derive(Drop)]
pub struct Near {
    bundle: Bundle,
    pub(crate) starts: Vec<usize>,
    pub(crate) looked: usize,
}

/// Returns true if a point lies in a plane.
fn is_on(plane: &Plane, point: Point) -> bool
    ensures { IsTrue result ↔ (height plane.now point ≡ pos 0) }
{
    plane.height(point) == 0
}

/// Returns the points of ids.
fn points_of(alloc: Global, pts: &[Point], ids: &[Id]) -> Result<Vec<Point>, AllocError>
    requires { AreIndices pts.now ids.now }
    ensures { IfOk result (λ v. v.items ≡ map (place pts.now) ids.now) }
{
    let mut points = Vec::with_capacity(alloc, ids.len())?;
    for id in ids {
        points.push(point_at(pts, *id))?;
    }
    Ok(points)
}

impl Places {
    ghost use Rattle.qh_places.specs.contract.Places.{ArePlaces, IsAbove, AreLevel};

    /// Returns the ids in their order, with their points and blocks of these. `outward` has a guess of the outward
    /// direction for each id.
    ///
    /// Each of `ids` is the index of one of the points. Searches are faster if ids near each other in space are near
    /// each other in the list.
    ///
    /// # Errors
    ///
    /// `AllocError` if an allocation failed.
    pub fn in_order(
        alloc: Global,
        pts: &[Point],
        ids: &[Id],
        outward: &[Outward],
    ) -> Result<Places, AllocError>
        requires { AreIndices pts.now ids.now }
        ensures { IfOk result (ArePlaces pts.now ids.now) }
    {
        let ids = Vec::from_slice(alloc, ids)?;
        let points = points_of(alloc, pts, &ids)?;
        let levels = levels_over(alloc, &points, outward)?;
        let leaves = Level::over(alloc, &points, outward, LEAF_SHIFT)?;
        Ok(Places {
            ids,
            points,
            levels,
            leaves,
        })
    }

    /// Appends the ids of the points in a range of positions that lie in a plane, if none of these points lies above
    /// it; else returns the id of one that does.
    fn look(
        &self,
        plane: &Plane,
        from: usize,
        to: usize,
        found: &mut Vec<Id>,
    ) -> Result<Option<Id>, AllocError>
        requires { to ≤ length self.now.points.items }
        ensures { IfOk result (λ above. MatchOption above
            (from ≤ to → HasLooked self.now.points.items self.now.ids.items plane.now from to found.old.items found.new.items)
            (IsAboveAt self.now.points.items self.now.ids.items plane.now)) }
    {
        for position in from..to {
            let point = self.points[position];
            if plane.sees(point) {
                return Ok(Some(self.ids[position]));
            }
            if is_on(plane, point) {
                found.push(self.ids[position])?;
            }
        }
        Ok(None)
    }

    /// Does the same as `look` for the `LEAF` positions from `start` on, or for those that there are.
    fn look_from(
        &self,
        plane: &Plane,
        start: usize,
        found: &mut Vec<Id>,
    ) -> Result<Option<Id>, AllocError>
        ensures { IfOk result (λ above. MatchOption above
            (HasLooked self.now.points.items self.now.ids.items plane.now start (start + LEAF) found.old.items found.new.items)
            (IsAboveAt self.now.points.items self.now.ids.items plane.now)) }
    {
        if start >= self.points.len() || self.leaves.below(plane, start) >= LEAF {
            return Ok(None);
        }
        let to = start.saturating_add(LEAF).min(self.points.len());
        self.look(plane, start, to, found)
    }

    /// Returns the number of points, beginning at a position, that a single block proves to lie below all planes of a
    /// bundle, or 0.
    fn below_all(&self, bundle: &Bundle, from: usize) -> usize
        ensures { AreBelowAll self.now.points.items bundle.now from (from + result) }
    {
        let below = below_all(&self.levels, bundle, from);
        if below > 0 {
            return below;
        }
        self.leaves.below_all(bundle, from)
    }

    /// Returns the number of levels of blocks. Level 0 has the largest ones.
    pub fn level_count(&self) -> usize {
        self.levels.len().saturating_add(1)
    }

    /// Returns the box and the points of the block of a level that begins at a position, if there is one.
    pub fn block(&self, level: usize, from: usize) -> Option<(&PointBox, &[Point])> {
        let level = self.levels.get(level).unwrap_or(&self.leaves);
        level.block(&self.points, from)
    }

    /// Returns true if the `LEAF` points from a position on, or those that there are, are strictly below a plane.
    fn are_hidden(&self, plane: &Plane, from: usize) -> bool {
        let to = from.saturating_add(LEAF).min(self.points.len());
        let own = self.points.get(from..to).unwrap_or(&[]);
        own.iter().all(|point| plane.height(*point) < 0)
    }

    /// Returns true if all points are found to be strictly below a plane. Also returns false if the budget is exhausted.
    pub fn is_below(&self, tangent: &Tangent, budget: &mut Budget) -> bool {
        let mut from = 0usize;
        for _ in 0..self.points.len() {
            if from >= self.points.len() {
                break;
            }
            let below = below_one(&self.levels, &self.leaves, tangent, from);
            if !budget.spend(1) {
                return false;
            }
            if below > 0 {
                from = from.saturating_add(below);
            } else if budget.spend(LEAF) && self.are_hidden(&tangent.plane, from) {
                from = from.saturating_add(LEAF);
            } else {
                return false;
            }
        }
        true
    }

    /// Returns the positions where the planes of a bundle have to be tested.
    fn near(&self, alloc: Global, bundle: Bundle) -> Result<Near, AllocError>
        ensures { IfOk result (IsNear self.now.points.items) }
    {
        let mut starts = Vec::new(alloc);
        let mut looked = 0usize;
        let mut from = 0;
        while from < self.points.len() {
            looked = looked.saturating_add(1);
            let below = self.below_all(&bundle, from);
            if below > 0 {
                from = from.saturating_add(below);
            } else {
                starts.push(from)?;
                from = from.saturating_add(LEAF);
            }
        }
        Ok(Near {
            bundle,
            starts,
            looked,
        })
    }

    /// Returns the positions where some planes have to be tested. The result is smaller if the planes have similar
    /// normals and pass near one point.
    ///
    /// # Errors
    ///
    /// `AllocError` if an allocation failed.
    pub fn near_planes(
        &self,
        alloc: Global,
        origin: Point,
        planes: &[Plane],
    ) -> Result<Near, AllocError>
        ensures { IfOk result (IsNear self.now.points.items) }
    {
        self.near(alloc, Bundle::of_planes(origin, planes))
    }

    /// Lists in `found` the ids whose points lie in a plane, if no point lies above the plane; else returns the id of
    /// one that does. If `near` was made for the plane, only its positions are tested; for any other plane, all
    /// positions are.
    ///
    /// # Errors
    ///
    /// `AllocError` if an allocation failed.
    pub fn on_plane(
        &self,
        plane: &Plane,
        near: &Near,
        found: &mut Vec<Id>,
    ) -> Result<Option<Id>, AllocError>
        requires { IsNear self.now.points.items near.now }
        ensures { IfOk result (λ above. (pts : List Vector) (ids : List ℕ) → ArePlaces pts ids self.now
            → MatchOption above (AreLevel pts ids plane.now found.new.items) (IsAbove pts ids plane.now)) }
    {
        found.clear();
        if !near.bundle.has(plane) {
            return self.look(plane, 0, self.points.len(), found);
        }
        for index in 0..near.starts.len() {
            let start = near.starts[index];
            if let Some(id) = self.look_from(plane, start, found)? {
                return Ok(Some(id));
            }
        }
        Ok(None)
    }

    /// Returns true if all points are strictly below each of some planes. The search is faster if the planes have
    /// similar normals and pass near one point. Also returns false if the budget is exhausted.
    ///
    /// # Errors
    ///
    /// `AllocError` if an allocation failed.
    pub fn are_below(
        &self,
        alloc: Global,
        origin: Point,
        planes: &[Plane],
        budget: &mut Budget,
    ) -> Result<bool, AllocError>
        ensures { IfOk result (λ below. IsTrue below → (pts : List Vector) (ids : List ℕ) → ArePlaces pts ids self.now
            → (plane : PlaneValue) → In plane planes.now → (l : ℕ) → In l ids → height plane (place pts l) <ℤ pos 0) }
    {
        let near = self.near_planes(alloc, origin, planes)?;
        if !budget.spend(near.cost(planes.len())) {
            return Ok(false);
        }
        let mut found = Vec::new(alloc);
        for plane in planes {
            let above = self.on_plane(plane, &near, &mut found)?;
            if let Some(_) = above {
                return Ok(false);
            }
            if found.len() > 0 {
                return Ok(false);
            }
        }
        Ok(true)
    }
}
