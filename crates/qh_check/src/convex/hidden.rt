//! Points under a surface: each lies in the cone from a place inside through one of its triangles, and not above the
//! triangle.
//!
//! A walk over the surface finds the triangle. It starts at the triangle of the previous point along a curve. The walk
//! is a guess, and the triangle at its end is tested.
ghost use Rattle.std.specs.Prelude.{◌<◌, ◌≤◌, ℕ, All, IfOk, IfSome, IsTrue, length};
ghost use Rattle.qh_model.specs.{contract.IdSets.AreIndices, headline.Predicates.place, headline.Sets.In};
ghost use Rattle.qh_check.specs.declared.convex.steps.TheConstants.{ROOM};
ghost use Rattle.qh_check.specs.steps.Hidden.{id_in, IsStepBelow, IsUnderOne, IsUnderStep};
ghost use Rattle.qh_check.specs.steps.{StepKeys.step_in, Triangles.IsBelow};

use crate::convex::curve::{id_of, keys_along};
use crate::convex::pairs::is_below;
use crate::convex::steps::{TriangleStep, step_key};
use qh_model::{Id, Point};
use qh_pred::{Plane, point_at};
use std::alloc::{AllocError, Global};

/// The greatest number of triangles on all walks for each step to a higher id. Beyond it the check of the surface ends
/// without success.
const WALKED_FOR_EACH: usize = 4;

/// A surface around a place, stored as the steps round its triangles.
#[derive(Clone, Copy, Drop)]
pub struct Surroundings<'a> {
    pub pts: &'a [Point],
    pub up: &'a [u64],
    pub down: &'a [u64],
    pub middle: Point,
    ghost few: { length pts.now ≤ ROOM },
    ghost ups: { All (λ key. IsBelow (length pts.now) (step_in key)) up.now },
    ghost downs: { All (λ key. IsBelow (length pts.now) (step_in key)) down.now },
}

/// Returns a step round the same triangle, to a higher id.
fn rising(step: &TriangleStep) -> TriangleStep
    ensures { (n : ℕ) → IsStepBelow n step.now → IsStepBelow n result }
{
    let TriangleStep { from, to, third } = *step;
    if from < to {
        TriangleStep { from, to, third }
    } else if to < third {
        TriangleStep {
            from: to,
            to: third,
            third: from,
        }
    } else {
        TriangleStep {
            from: third,
            to: from,
            third: to,
        }
    }
}

impl Surroundings<'_> {
    /// Returns the step from `u` to `v` round a triangle. If the steps along the edges do not pair off, the third
    /// corner may be any id.
    fn step(&self, u: Id, v: Id) -> Option<TriangleStep>
        requires from { u < length self.now.pts.now }
        requires to { v < length self.now.pts.now }
        ensures { IfSome result (IsStepBelow (length self.now.pts.now)) }
    {
        let keys = if u < v { self.up } else { self.down };
        let (low, high) = if u < v { (u, v) } else { (v, u) };
        let (Ok(position) | Err(position)) = keys.binary_search(&step_key(low, high, Id::new(0)));
        let third = TriangleStep::of(*keys.get(position)?).third;
        Some(TriangleStep {
            from: u,
            to: v,
            third,
        })
    }

    /// Returns true if a point is past the side from `u` to `v`, seen from inside.
    fn is_past(&self, u: Id, v: Id, p: Point) -> bool
        requires from { u < length self.now.pts.now }
        requires to { v < length self.now.pts.now }
    {
        is_below(self.middle, point_at(self.pts, u), point_at(self.pts, v), p)
    }

    /// Returns the step back along a side of a triangle that has a point past it, if there is one.
    fn next(&self, step: &TriangleStep, p: Point) -> Option<TriangleStep>
        requires { IsStepBelow (length self.now.pts.now) step.now }
        ensures { IfSome result (IsStepBelow (length self.now.pts.now)) }
    {
        if self.is_past(step.to, step.third, p) {
            return self.step(step.third, step.to);
        }
        if self.is_past(step.third, step.from, p) {
            return self.step(step.from, step.third);
        }
        if self.is_past(step.from, step.to, p) {
            return self.step(step.to, step.from);
        }
        None
    }

    /// Returns a step round the triangle at which a walk to a point ends. The walk visits at most `budget` triangles,
    /// and subtracts their number from the budget.
    fn walk(&self, start: TriangleStep, p: Point, budget: &mut usize) -> TriangleStep
        requires { IsStepBelow (length self.now.pts.now) start }
        ensures { IsStepBelow (length self.now.pts.now) result }
    {
        let mut step = start;
        while *budget > 0 {
            *budget -= 1;
            match self.next(&step, p) {
                Some(next) => step = next,
                None => return step,
            }
        }
        step
    }

    /// Returns true if a point lies under the triangle of a key.
    fn is_under(&self, key: u64, p: Point) -> bool
        requires { IsBelow (length self.now.pts.now) (step_in key) }
        ensures { IsTrue result → IsUnderStep (place self.now.pts.now) self.now.middle (step_in key) p }
    {
        let step = TriangleStep::of(key);
        let a = point_at(self.pts, step.from);
        let b = point_at(self.pts, step.to);
        let c = point_at(self.pts, step.third);
        if is_below(self.middle, a, b, p) {
            return false;
        }
        if is_below(self.middle, b, c, p) {
            return false;
        }
        if is_below(self.middle, c, a, p) {
            return false;
        }
        !Plane::through(a, b, c).sees(p)
    }

    /// Returns true if a point lies under the triangle of a step, and the surface has the triangle.
    fn is_under_step(&self, step: &TriangleStep, p: Point) -> bool
        requires { IsStepBelow (length self.now.pts.now) step.now }
        ensures { IsTrue result → IsUnderOne (place self.now.pts.now) self.now.up.now self.now.middle p }
    {
        let up = rising(step);
        match self.up.binary_search(&step_key(up.from, up.to, up.third)) {
            Ok(position) => self.is_under(self.up[position], p),
            Err(_) => false,
        }
    }

    /// Returns true if the points of some ids, given by keys along a curve, lie under triangles of the surface.
    fn are_under(&self, keys: &[u64]) -> bool
        requires { All (λ key. id_in key < length self.now.pts.now) keys.now }
        ensures { IsTrue result → (key : ℕ) → In key keys.now
            → IsUnderOne (place self.now.pts.now) self.now.up.now self.now.middle (place self.now.pts.now (id_in key)) }
    {
        let Some(first) = self.up.first() else {
            return false;
        };
        let mut step = TriangleStep::of(*first);
        let mut budget = self.up.len().saturating_mul(WALKED_FOR_EACH);
        for key in keys {
            let p = point_at(self.pts, id_of(*key));
            step = self.walk(step, p, &mut budget);
            if !self.is_under_step(&step, p) {
                return false;
            }
        }
        true
    }

    /// Returns true if the points of some ids lie under triangles of the surface.
    pub fn has_under(&self, alloc: Global, ids: &[Id]) -> Result<bool, AllocError>
        requires { AreIndices self.now.pts.now ids.now }
        ensures { IfOk result (λ b. IsTrue b → (l : ℕ) → In l ids.now
            → IsUnderOne (place self.now.pts.now) self.now.up.now self.now.middle (place self.now.pts.now l)) }
    {
        let keys = keys_along(alloc, self.pts, ids)?;
        Ok(self.are_under(&keys))
    }
}
