//! A run of Quickhull. In each round one point becomes a corner.
ghost use Rattle.std.specs.Prelude.{◌≡◌, ◌≤◌, ◌<◌, [], length, OnOk, IfOk};
ghost use Rattle.qh_surface.specs.{contract.OutsideSets.listed, steps.Positions.IsSimplexIn, steps.Cones.IsFan};
ghost use Rattle.qh_surface.specs.steps.Runs.{AreDone, IsGrown, IsUnderWay, IsPicked, IsRemade};
ghost use Rattle.qh_surface.specs.steps.RunStates.{state_of};

use crate::outside_sets::OutsideSets;
use crate::quickhull::cone_ring::{ConeRing, SCANNED};
use crate::quickhull::planes::{SPARE, make_room, renew};
use crate::quickhull::settling::{release, settle_orphans};
use crate::quickhull::turns::Turns;
use crate::quickhull::waiting_facets::{enqueue, next_apex};
use crate::quickhull::walk::Walk;
use crate::starts::Simplex;
use qh_mesh::{FacetNo, Mesh};
use qh_model::{Id, Memory, Point};
use qh_pred::Plane;
use std::alloc::Global;

/// The least number of points for which a run allocates memory for all its facets at once.
const LARGE: usize = 262_144;

/// The number of points for whose facets any other run allocates memory at its start. Most runs over few points need
/// it.
const SMALL: usize = 32;

/// The number of places for each point. A mesh over points has at most two facets for each; the third is spare.
const PLACES_EACH: usize = 3;

/// The state that a run keeps from round to round.
#[derive(Drop)]
pub struct QuickhullRun {
    /// The surface so far: its corners are positions of the points.
    pub mesh: Mesh,
    /// The points, each identified by its position.
    pub points: Vec<Point>,
    /// The planes of the facets, by place.
    planes: Vec<Plane>,
    /// The points that are not settled, by position.
    sets: OutsideSets,
    /// The facets that the apex of the round sees.
    walk: Walk,
    /// The facets that the last round made, if there are many.
    ring: ConeRing,
    /// The facets that wait to be processed.
    pending: Vec<FacetNo>,
    /// The order in which facets are processed.
    turns: Turns,
    /// The number of facets made so far, a measure of the cost of the run. A trial reads it.
    pub made: usize,
}

/// Returns the number of places that a run over `points` points requests at its start.
fn places_asked(points: usize) -> usize {
    let asked_for = if points < LARGE {
        points.min(SMALL)
    } else {
        points
    };
    asked_for.saturating_mul(PLACES_EACH)
}

/// Returns an empty list with capacity for `items` items, or without capacity if the allocation fails.
fn room_for<T>(alloc: Global, items: usize) -> Vec<T>
    ensures { result.items ≡ [] }
{
    let mut list = Vec::new(alloc);
    let _ = list.reserve(items);
    list
}

/// Reserves the memory that a round needs after its mesh has changed. The horizon of `visible` facets has
/// at most `3 * visible` edges, and the cone has one facet over each of them.
fn make_ready(
    planes: &mut Vec<Plane>,
    sets: &mut OutsideSets,
    ring: &mut ConeRing,
    pending: &mut Vec<FacetNo>,
    visible: usize,
) -> Result<(), Memory>
    ensures planes { planes.new.items ≡ planes.old.items }
    ensures sets { sets.new ≡ sets.old }
    ensures pending { pending.new.items ≡ pending.old.items }
{
    let most = visible.saturating_mul(3);
    planes.reserve(most)?;
    sets.reserve(most)?;
    if most > SCANNED {
        ring.reserve(most)?;
    }
    pending.reserve(most)?;
    Ok(())
}

impl QuickhullRun {
    /// Returns a run over points with the four facets of an initial simplex, given as four positions of the points.
    ///
    /// Returns `Err` if an allocation failed, or if there are more points than numbers for them.
    pub fn start(alloc: Global, points: Vec<Point>, first: Simplex) -> Result<QuickhullRun, Memory>
        requires { IsSimplexIn points.items first }
        ensures points { IfOk result (λ r. r.points.items ≡ points.items) }
        ensures under_way { IfOk result (λ r. IsUnderWay (state_of r)) }
    {
        let Ok(positions) = u32::try_from(points.len()) else {
            return Err(Memory);
        };
        let mut mesh = Mesh::simplex(alloc, &points, first.i, first.j, first.k, first.l)?;
        let places = places_asked(points.len());
        mesh.ask_for_room(places);
        let mut sets = OutsideSets::new(alloc, positions)?;
        sets.ask_for_room(places.saturating_add(SPARE));
        let mut run = QuickhullRun {
            mesh,
            points,
            planes: room_for(alloc, places.saturating_add(SPARE)),
            sets,
            walk: Walk::new(alloc),
            ring: ConeRing::new(alloc),
            pending: room_for(alloc, SMALL),
            turns: Turns::newest(),
            made: 0,
        };
        run.settle(&[
            FacetNo::new(0),
            FacetNo::new(1),
            FacetNo::new(2),
            FacetNo::new(3),
        ])?;
        let (first_planes, _) = run.planes.split_at(run.planes.len().min(4));
        run.turns = Turns::over(first_planes, &run.points);
        Ok(run)
    }

    /// Stores the planes of the new facets, moves the orphans to the outside sets of those that they are above, and
    /// lists those with an outside set as waiting.
    fn settle(&mut self, made: &[FacetNo]) -> Result<(), Memory>
        requires remade { IsRemade (state_of self.old) made.now }
        requires fan { SCANNED < length made.now → IsFan self.old.mesh made.now }
        ensures points { self.new.points.items ≡ self.old.points.items }
        ensures under_way { OnOk result (IsUnderWay (state_of self.new)) }
        ensures listed { OnOk result (listed self.new.sets ≤ listed self.old.sets) }
    {
        make_room(&mut self.planes, self.mesh.places())?;
        self.sets.make_room(self.planes.len())?;
        renew(&self.points, &self.mesh, made, &mut self.planes);
        self.ring
            .take(&self.points, &self.mesh, &self.planes, made)?;
        settle_orphans(&mut self.sets, &self.planes, &self.points, &self.ring, made);
        self.made = self.made.saturating_add(made.len());
        enqueue(&mut self.pending, &self.sets, made)?;
        Ok(())
    }

    /// Adds the point at a position, which is above a facet, as a corner: its cone replaces the facets that see it.
    fn add(&mut self, alloc: Global, facet: FacetNo, apex: Id) -> Result<(), Memory>
        requires { IsPicked (state_of self.old) facet apex }
        ensures points { self.new.points.items ≡ self.old.points.items }
        ensures under_way { OnOk result (IsUnderWay (state_of self.new)) }
        ensures listed { OnOk result (listed self.new.sets ≤ listed self.old.sets) }
    {
        let point = self.points[apex.index()];
        self.walk.find(&self.mesh, &self.planes, facet, point)?;
        let visible = self.walk.visible().len();
        make_ready(
            &mut self.planes,
            &mut self.sets,
            &mut self.ring,
            &mut self.pending,
            visible,
        )?;
        release(&mut self.sets, self.walk.visible());
        let made = self
            .mesh
            .replace(alloc, &self.points, self.walk.visible(), apex)?;
        self.settle(&made)?;
        self.mesh.take_room(made);
        Ok(())
    }

    /// Adds points until no facet has an outside set.
    pub fn finish(&mut self, alloc: Global) -> Result<(), Memory>
        requires { IsUnderWay (state_of self.old) }
        ensures points { self.new.points.items ≡ self.old.points.items }
        ensures grown { OnOk result (IsGrown self.new.points.items self.new.mesh) }
        ensures done { OnOk result (AreDone self.new.points.items self.new.mesh) }
    {
        while let Some((facet, apex)) = next_apex(
            &mut self.pending,
            &mut self.turns,
            &mut self.sets,
        ) {
            self.add(alloc, facet, apex)?;
        }
        Ok(())
    }
}
