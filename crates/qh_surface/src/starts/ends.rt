//! The ends of a set along the three axes.
ghost use Rattle.std.specs.Prelude.{◌<◌, ℕ, List, length};
ghost use Rattle.std.specs.List.{All};
ghost use Rattle.qh_model.specs.{contract.IdSets.AreIndices, headline.Sets.Members};

use qh_model::{Id, Point};
use qh_pred::point_at;

/// An id, and how far its point reaches along a direction.
#[derive(Clone, Copy, Drop)]
struct End {
    id: Id,
    reach: i32,
}

impl End {
    /// Returns this end or another, whichever reaches further.
    fn or(self, id: Id, reach: i32) -> End
        ensures { (ids : List ℕ) → Members ids self.id → Members ids id → Members ids result.id }
    {
        if reach > self.reach {
            End { id, reach }
        } else {
            self
        }
    }
}

/// Returns the first ids of the least and the greatest x, then of the least and the greatest y, then of the least and
/// the greatest z.
pub fn ends_of(pts: &[Point], ids: &[Id]) -> [Id; 6]
    requires some { 0 < length ids.now }
    requires indices { AreIndices pts.now ids.now }
    ensures members { All (Members ids.now) result }
    ensures indices { AreIndices pts.now result }
{
    let none = End {
        id: ids[0],
        reach: i32::MIN,
    };
    let (mut west, mut south, mut bottom) = (none, none, none);
    let (mut east, mut north, mut top) = (none, none, none);
    for id in ids {
        let point = point_at(pts, *id);
        west = west.or(*id, !point.x());
        east = east.or(*id, point.x());
        south = south.or(*id, !point.y());
        north = north.or(*id, point.y());
        bottom = bottom.or(*id, !point.z());
        top = top.or(*id, point.z());
    }
    [west.id, east.id, south.id, north.id, bottom.id, top.id]
}
