//! An initial simplex whose corners are far apart.
//!
//! The larger the initial simplex, the more points lie inside it and are never tested again. No answer
//! depends on which simplex it is.
//!
//! Source: Barber, Dobkin and Huhdanpaa 1996 (the initial simplex has points with the least and the
//! greatest coordinates).
ghost use Rattle.std.specs.{Prelude.◌<◌, Prelude.length, List.All};
ghost use Rattle.qh_model.specs.{contract.IdSets.AreIndices, headline.Predicates.vol, headline.Sets.Members};
ghost use Rattle.qh_surface.specs.contract.Simplexes.{IsSimplexOf};

use qh_model::{Id, Point};
use qh_pred::{Plane, cross, point_at, vol};

/// The number of ids, spread over all, that are tested for each corner: a sample is enough, since extremes of a large
/// set lie as far apart.
const LOOKED_AT: usize = 1_024;

/// Four ids, or four positions of them, whose points are not in one plane: the corners of an initial simplex.
#[derive(Clone, Copy, Drop)]
pub struct Simplex {
    pub i: Id,
    pub j: Id,
    pub k: Id,
    pub l: Id,
}

/// The line or plane from which the next corner of a simplex should be far.
#[derive(Clone, Copy, Drop)]
enum FarFrom {
    /// The line through two points.
    Line(Point, Point),
    /// A plane.
    Plane(Plane),
}

impl FarFrom {
    /// Returns a number that grows with the distance of a point.
    fn distance(&self, p: Point) -> u128 {
        match *self {
            FarFrom::Line(a, b) => {
                let normal = cross(a, b, p);
                let flat = normal
                    .x()
                    .unsigned_abs()
                    .saturating_add(normal.y().unsigned_abs());
                flat.saturating_add(normal.z().unsigned_abs())
            }
            FarFrom::Plane(plane) => plane.height(p).unsigned_abs(),
        }
    }
}

/// Returns the first of the tested ids whose points are furthest.
fn furthest(pts: &[Point], ids: &[Id], from: FarFrom) -> Id
    requires some { 0 < length ids.now }
    requires indices { AreIndices pts.now ids.now }
    ensures member { Members ids.now result }
    ensures inside { result < length pts.now }
{
    let mut found = ids[0];
    let mut most = 0;
    let step = ids.len() / LOOKED_AT + 1;
    for part in 0..ids.len() / step {
        let id = ids[part * step];
        let distance = from.distance(point_at(pts, id));
        if distance > most {
            most = distance;
            found = id;
        }
    }
    found
}

/// Returns the furthest of the ends of a set and of the tested ids.
fn furthest_of(pts: &[Point], ids: &[Id], ends: &[Id], from: FarFrom) -> Id
    requires some { 0 < length ids.now }
    requires indices { AreIndices pts.now ids.now }
    requires some_end { 0 < length ends.now }
    requires ends { All (Members ids.now) ends.now }
    requires ends_in { AreIndices pts.now ends.now }
    ensures member { Members ids.now result }
    ensures inside { result < length pts.now }
{
    let end = furthest(pts, ends, from);
    let looked_at = furthest(pts, ids, from);
    let is_end = from.distance(point_at(pts, end)) >= from.distance(point_at(pts, looked_at));
    if is_end { end } else { looked_at }
}

/// Returns a simplex of ids that are far apart: those of the least and the greatest x, the id that is furthest from
/// their line, and the id that is furthest from the plane of the three. If these lie in one plane, it returns `given`.
/// The ends are those along the three axes, the least x first.
pub fn wide_simplex(pts: &[Point], ids: &[Id], ends: &[Id; 6], given: Simplex) -> Simplex
    requires some { 0 < length ids.now }
    requires indices { AreIndices pts.now ids.now }
    requires ends { All (Members ids.now) ends.now }
    requires ends_in { AreIndices pts.now ends.now }
    requires given { IsSimplexOf pts.now ids.now given }
    ensures { IsSimplexOf pts.now ids.now result }
{
    let [i, j, ..] = *ends;
    let (a, b) = (point_at(pts, i), point_at(pts, j));
    let k = furthest_of(pts, ids, ends, FarFrom::Line(a, b));
    let c = point_at(pts, k);
    let l = furthest_of(pts, ids, ends, FarFrom::Plane(Plane::through(a, b, c)));
    if vol(a, b, c, point_at(pts, l)) == 0 {
        return given;
    }
    Simplex { i, j, k, l }
}
