//! The steps round triangles, sorted, so that the two along an edge are at the same position.
ghost use Rattle.std.specs.Prelude.{◌≡◌, ◌<◌, ◌++◌, [], ◌∷◌, ℕ, All, IfOk, OnOk, filter, map};
ghost use Rattle.std.specs.List.{flat_map};
ghost use Rattle.qh_check.specs.steps.Triangles.{IsBelow};
ghost use Rattle.qh_check.specs.steps.StepKeys.{step_in, turns, goes_up, goes_down, back, AreSteps};

use crate::convex::triangles::Triangle;
use qh_model::Id;
use std::alloc::{AllocError, Global};

/// The range of an id in the key of a step: 2^20, the greatest number of points.
pub const ROOM: u64 = 1048576;

/// The keys of the steps round triangles: of the steps to a higher id, and of the reversed steps to a lower one. A key
/// has the ids of both ends and of the third corner of the triangle, beginning with the highest bits.
#[derive(Drop)]
pub struct Steps {
    pub up: Vec<u64>,
    pub down: Vec<u64>,
}

/// A step from a corner of a triangle to the next, and the third corner.
#[derive(Clone, Copy, Drop)]
pub struct TriangleStep {
    pub from: Id,
    pub to: Id,
    pub third: Id,
}

impl TriangleStep {
    /// Returns the step of a key.
    pub fn of(key: u64) -> TriangleStep
        ensures from { result.from ≡ (step_in key).i }
        ensures to { result.to ≡ (step_in key).j }
        ensures third { result.third ≡ (step_in key).k }
    {
        TriangleStep {
            from: Id::new((key / ROOM / ROOM) as u32),
            to: Id::new((key / ROOM % ROOM) as u32),
            third: Id::new((key % ROOM) as u32),
        }
    }
}

/// Returns the key of the step from `u` to `v` round a triangle whose third corner is `w`.
pub fn step_key(u: Id, v: Id, w: Id) -> u64
    requires from { u < ROOM }
    requires to { v < ROOM }
    requires third { w < ROOM }
    ensures { step_in result ≡ record { i = u; j = v; k = w } }
{
    (u64::from(u.number()) * ROOM + u64::from(v.number())) * ROOM + u64::from(w.number())
}

impl Steps {
    /// Adds the step from `u` to `v` round a triangle whose third corner is `w`.
    fn add(&mut self, u: Id, v: Id, w: Id) -> Result<(), AllocError>
        requires from { u < ROOM }
        requires to { v < ROOM }
        requires third { w < ROOM }
        ensures up { OnOk result (map step_in self.new.up.items
            ≡ map step_in self.old.up.items ++ filter goes_up (record { i = u; j = v; k = w } ∷ [])) }
        ensures down { OnOk result (map step_in self.new.down.items
            ≡ map step_in self.old.down.items ++ map back (filter goes_down (record { i = u; j = v; k = w } ∷ []))) }
    {
        if u < v {
            self.up.push(step_key(u, v, w))?;
        } else if v < u {
            self.down.push(step_key(v, u, w))?;
        }
        Ok(())
    }

    /// Adds the steps round a triangle.
    fn add_round(&mut self, t: Triangle) -> Result<(), AllocError>
        requires { IsBelow ROOM t }
        ensures up { OnOk result (map step_in self.new.up.items ≡ map step_in self.old.up.items ++ filter goes_up (turns t)) }
        ensures down { OnOk result (map step_in self.new.down.items ≡ map step_in self.old.down.items ++ map back (filter goes_down (turns t))) }
    {
        self.add(t.i(), t.j(), t.k())?;
        self.add(t.j(), t.k(), t.i())?;
        self.add(t.k(), t.i(), t.j())
    }

    /// Returns the steps round triangles.
    fn listed(alloc: Global, triangles: &[Triangle]) -> Result<Steps, AllocError>
        requires { All (IsBelow ROOM) triangles.now }
        ensures up { IfOk result (λ s. map step_in s.up.items ≡ filter goes_up (flat_map turns triangles.now)) }
        ensures down { IfOk result (λ s. map step_in s.down.items ≡ map back (filter goes_down (flat_map turns triangles.now))) }
    {
        let room = triangles.len() / 2 * 3;
        let mut steps = Steps {
            up: Vec::with_capacity(alloc, room)?,
            down: Vec::with_capacity(alloc, room)?,
        };
        for triangle in triangles {
            steps.add_round(*triangle)?;
        }
        Ok(steps)
    }

    /// Returns the steps round triangles, each list in rising order.
    pub fn sorted(alloc: Global, triangles: &[Triangle]) -> Result<Steps, AllocError>
        requires { All (IsBelow ROOM) triangles.now }
        ensures steps { IfOk result (λ s. AreSteps triangles.now s.up.items s.down.items) }
        ensures up { IfOk result (λ s. (n : ℕ) → All (IsBelow n) triangles.now → All (λ key. IsBelow n (step_in key)) s.up.items) }
        ensures down { IfOk result (λ s. (n : ℕ) → All (IsBelow n) triangles.now → All (λ key. IsBelow n (step_in key)) s.down.items) }
    {
        let mut steps = Steps::listed(alloc, triangles)?;
        steps.up.sort_unstable();
        steps.down.sort_unstable();
        Ok(steps)
    }
}
