//! New outside sets for the points of removed facets.
ghost use Rattle.std.specs.Prelude.{All, ◌≡◌, ◌≤◌, ◌<◌, ℕ, List, [], ◌∷◌, length, drop, pos, ◌<ℤ◌, IfNone, IfSome};
ghost use Rattle.qh_model.specs.{contract.StoredSurface.StoredFacet, headline.Sets.In, headline.Predicates.place};
ghost use Rattle.qh_pred.specs.contract.Planes.{height};
ghost use Rattle.qh_mesh.specs.contract.Replacement.{IsLive};
ghost use Rattle.qh_surface.specs.{contract.OutsideSets.listed, steps.Planes.plane_at, steps.Planes.ArePlanes};
ghost use Rattle.qh_surface.specs.steps.Runs.{IsSettling};
ghost use Rattle.qh_surface.specs.steps.Settling.{IsAboveNone, IsOneSettled, AreReleased};
ghost use Rattle.qh_surface.specs.steps.Cones.{AreWedges};

use crate::outside_sets::OutsideSets;
use crate::quickhull::cone_ring::{ConeRing, SCANNED};
use crate::quickhull::cone_search::Visibility;
use qh_mesh::FacetNo;
use qh_model::{Id, Point};
use qh_pred::Plane;

/// Makes the points of the removed facets orphans.
pub fn release(sets: &mut OutsideSets, gone: &[FacetNo])
    requires { All (λ f. f < length sets.old.sets) gone.now }
    ensures released { AreReleased sets.old sets.new gone.now }
    ensures places { length sets.new.sets ≡ length sets.old.sets }
    ensures positions { sets.new.positions ≡ sets.old.positions }
    ensures listed { listed sets.new ≡ listed sets.old }
{
    for facet in gone {
        sets.release(*facet);
    }
}

/// A facet that a point is above.
#[derive(Clone, Copy, Drop)]
struct Below {
    facet: FacetNo,
    /// The index of the facet among the new ones, or `SCANNED` if the ring named it.
    at: usize,
    /// The height of the point over the facet, or 0 if the ring named it.
    height: i128,
}

/// Returns the first of the facets that the point is above.
fn first_below(planes: &[Plane], made: &[FacetNo], point: Point) -> Option<Below>
    requires { All (λ f. f < length planes.now) made.now }
    ensures none { IfNone result (IsAboveNone planes.now made.now point) }
    ensures named { IfSome result (λ b. In b.facet made.now) }
    ensures seen { IfSome result (λ b. pos 0 <ℤ height (plane_at planes.now b.facet) point) }
{
    for at in 0..made.len() {
        let facet = made[at];
        let plane = &planes[facet.index()];
        if plane.sees(point) {
            let height = plane.height(point);
            return Some(Below { facet, at, height });
        }
    }
    None
}

/// Returns a new facet that the point is above. The first [`SCANNED`] are tested one by one, so that points gather in
/// few sets. If there are more, a search through their ring decides about the others.
fn one_below(planes: &[Plane], ring: &ConeRing, made: &[FacetNo], point: Point) -> Option<Below>
    requires planes { All (λ f. f < length planes.now) made.now }
    requires ring { AreWedges planes.now made.now ring.now.apex ring.now.wedges.items }
    ensures none { IfNone result (IsAboveNone planes.now made.now point) }
    ensures named { IfSome result (λ b. In b.facet made.now) }
    ensures seen { IfSome result (λ b. pos 0 <ℤ height (plane_at planes.now b.facet) point) }
{
    if made.len() <= SCANNED {
        return first_below(planes, made, point);
    }
    if let Some(below) = first_below(planes, &made[..SCANNED], point) {
        return Some(below);
    }
    match ring.visibility(point) {
        Visibility::Seen(facet) => Some(Below {
            facet,
            at: SCANNED,
            height: 0,
        }),
        Visibility::Unseen => None,
        Visibility::Unknown => first_below(planes, made, point),
    }
}

/// The cone over a horizon, among whose facets orphans are distributed.
#[derive(Clone, Copy, Drop)]
struct Cone<'a> {
    /// The points, by position.
    points: &'a [Point],
    /// The planes of the facets, by place.
    planes: &'a [Plane],
    /// The facets of the cone.
    made: &'a [FacetNo],
    /// The ring of the facets, if there are many.
    ring: &'a ConeRing,
}

/// Returns true if no point that was put over the facet is further above it than this one. `greatest` keeps the
/// greatest height over each facet that is tested one by one, so that the height of a set's first point is not computed
/// again.
fn is_furthest(
    greatest: &mut [i128; SCANNED],
    sets: &OutsideSets,
    cone: &Cone<'_>,
    below: &Below,
    point: Point,
) -> bool
    requires plane { below.now.facet < length cone.now.planes.now }
    requires place { below.now.facet < length sets.now.sets }
    requires points { sets.now.positions ≡ length cone.now.points.now }
{
    let Some(height) = greatest.get_mut(below.at) else {
        let Some(first) = sets.first(below.facet) else {
            return true;
        };
        let plane = cone.planes[below.facet.index()];
        return plane.height(point) > plane.height(cone.points[first.index()]);
    };
    let is_above = below.height > *height;
    *height = below.height.max(*height);
    is_above
}

/// Moves the first orphan into the outside set of one of the facets that it is above: in front, if no other point of
/// that set is known to be further above. An orphan above no facet is dropped. `greatest` has the height of the first
/// point of each facet that is tested one by one.
fn settle_orphan(
    sets: &mut OutsideSets,
    cone: &Cone<'_>,
    greatest: &mut [i128; SCANNED],
    orphan: Id,
)
    requires points { sets.old.positions ≡ length cone.now.points.now }
    requires planes { All (λ f. f < length cone.now.planes.now) cone.now.made.now }
    requires places { All (λ f. f < length sets.old.sets) cone.now.made.now }
    requires orphan { sets.old.orphans ≡ orphan ∷ drop 1 sets.old.orphans }
    requires position { orphan < sets.old.positions }
    requires ring { AreWedges cone.now.planes.now cone.now.made.now cone.now.ring.now.apex cone.now.ring.now.wedges.items }
    ensures settled { IsOneSettled cone.now.planes.now cone.now.points.now cone.now.made.now sets.old sets.new }
    ensures places { length sets.new.sets ≡ length sets.old.sets }
    ensures positions { sets.new.positions ≡ sets.old.positions }
    ensures listed { listed sets.new ≤ listed sets.old }
{
    let point = cone.points[orphan.index()];
    match one_below(cone.planes, cone.ring, cone.made, point) {
        Some(below) => {
            if is_furthest(greatest, sets, cone, &below, point) {
                sets.assign_in_front(below.facet);
            } else {
                sets.assign_second(below.facet);
            }
        }
        None => sets.drop_orphan(),
    }
}

/// Distributes all orphans among the new facets, or drops them.
pub fn settle_orphans(
    sets: &mut OutsideSets,
    planes: &[Plane],
    points: &[Point],
    ring: &ConeRing,
    made: &[FacetNo],
)
    requires points { sets.old.positions ≡ length points.now }
    requires planes { All (λ f. f < length planes.now) made.now }
    requires places { All (λ f. f < length sets.old.sets) made.now }
    requires ring { AreWedges planes.now made.now ring.now.apex ring.now.wedges.items }
    ensures none { sets.new.orphans ≡ [] }
    ensures settled { (fs : List StoredFacet) (pending : List ℕ) → All (IsLive fs) made.now → ArePlanes (place points.now) fs planes.now
        → IsSettling points.now fs sets.old pending made.now → IsSettling points.now fs sets.new pending made.now }
    ensures places { length sets.new.sets ≡ length sets.old.sets }
    ensures positions { sets.new.positions ≡ sets.old.positions }
    ensures listed { listed sets.new ≤ listed sets.old }
{
    let cone = Cone {
        points,
        planes,
        made,
        ring,
    };
    let mut greatest = [0; SCANNED];
    while let Some(orphan) = sets.first_orphan() {
        settle_orphan(sets, &cone, &mut greatest, orphan);
    }
}
