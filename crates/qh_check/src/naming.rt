//! The distinct ids for the corners of faces.
ghost use Rattle.std.specs.Prelude.{◌≡◌, ◌<◌, ◌↔◌, [], IfOk, IsTrue, MatchOption, MatchResult, length, slice_index_or};
ghost use Rattle.qh_model.specs.contract.IdSets.{AreIndices};
ghost use Rattle.qh_check.specs.contract.Naming.{AreNamed, AreNamedFaces, HasStranger, IsAt, IsNamed, IsNowhere, IsStranger};

use crate::positions::positions_of;
use qh_model::{Id, Point, Polygon};
use qh_pred::point_at;
use std::alloc::{AllocError, Global};

/// The points whose indices the corners of faces are, and the positions of the distinct ids of the same points.
#[derive(Clone, Copy, Drop)]
struct Named<'a> {
    pts: &'a [Point],
    ids: &'a [Id],
    list: &'a [Point],
    positions: &'a [usize],
    ghost indices: { AreIndices pts.now ids.now },
}

/// Returns true if two points are the same.
pub(crate) fn are_same(a: Point, b: Point) -> bool
    ensures { IsTrue result ↔ (a ≡ b) }
{
    a == b
}

impl Named<'_> {
    /// Returns the distinct id of a point, by comparing the ids one by one.
    fn looked_for(self, point: Point) -> Option<Id>
        ensures { MatchOption result (IsNowhere self.entry.pts.now self.entry.ids.now point) (IsAt self.entry.pts.now self.entry.ids.now point) }
    {
        for id in self.ids {
            if are_same(point_at(self.pts, *id), point) {
                return Some(*id);
            }
        }
        None
    }

    /// Returns the distinct id of a point, which is the id at a position if that is known. Otherwise all ids are
    /// compared. That happens at most once, since the point is then not in the list.
    fn id_at(self, point: Point, position: usize) -> Option<Id>
        ensures { MatchOption result (IsNowhere self.entry.pts.now self.entry.ids.now point) (IsAt self.entry.pts.now self.entry.ids.now point) }
    {
        if position < self.ids.len() && are_same(point_at(self.pts, self.ids[position]), point) {
            return Some(self.ids[position]);
        }
        self.looked_for(point)
    }

    /// Returns the distinct id for a corner.
    fn id_of(self, number: Id) -> Option<Id>
        ensures { MatchOption result (IsStranger self.entry.pts.now self.entry.ids.now self.entry.list.now number)
            (IsNamed self.entry.pts.now self.entry.ids.now self.entry.list.now number) }
    {
        if number.index() >= self.list.len() {
            return None;
        }
        let position = self.positions.get(number.index()).copied();
        self.id_at(point_at(self.list, number), position.unwrap_or(0))
    }

    /// Returns a face with its corners renamed to distinct ids, or `None` if one of them is not one of the points.
    fn renamed(self, alloc: Global, face: &Polygon) -> Result<Option<Polygon>, AllocError>
        ensures { IfOk result (λ r. MatchOption r (HasStranger self.entry.pts.now self.entry.ids.now self.entry.list.now face.now)
            (AreNamed self.entry.pts.now self.entry.ids.now self.entry.list.now face.now)) }
    {
        let mut ids = Vec::with_capacity(alloc, face.ids().len())?;
        for number in face.ids() {
            match self.id_of(*number) {
                Some(id) => ids.push(id)?,
                None => return Ok(None),
            }
        }
        Ok(Some(Polygon::of(ids)))
    }

    /// Returns the polygons of faces, or the position of a face with a corner that is not one of the points.
    fn all_renamed(
        self,
        alloc: Global,
        faces: &[Polygon],
    ) -> Result<Result<Vec<Polygon>, usize>, AllocError>
        ensures { IfOk result (λ r. MatchResult r
            (λ qs. AreNamedFaces self.entry.pts.now self.entry.ids.now self.entry.list.now faces.now qs.items)
            (λ n. (n < length faces.now) × HasStranger self.entry.pts.now self.entry.ids.now self.entry.list.now (slice_index_or faces.now n []))) }
    {
        let mut polygons = Vec::with_capacity(alloc, faces.len())?;
        for position in 0..faces.len() {
            match self.renamed(alloc, &faces[position])? {
                Some(polygon) => polygons.push(polygon)?,
                None => return Ok(Err(position)),
            }
        }
        Ok(Ok(polygons))
    }
}

/// Returns the polygons of faces, renamed to the distinct ids of the points, or the position of a face with a corner
/// that is not one of the points.
pub fn polygons_of(
    alloc: Global,
    pts: &[Point],
    ids: &[Id],
    list: &[Point],
    faces: &[Polygon],
) -> Result<Result<Vec<Polygon>, usize>, AllocError>
    requires { AreIndices pts.now ids.now }
    ensures { IfOk result (λ r. MatchResult r
        (λ qs. AreNamedFaces pts.now ids.now list.now faces.now qs.items)
        (λ n. (n < length faces.now) × HasStranger pts.now ids.now list.now (slice_index_or faces.now n []))) }
{
    let positions = positions_of(alloc, pts, ids, list)?;
    let named = Named {
        pts,
        ids,
        list,
        positions: &positions,
    };
    named.all_renamed(alloc, faces)
}
