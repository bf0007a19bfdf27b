//! The polygon of a face.
ghost use Rattle.std.specs.Prelude.{◌≡◌, ◌<◌, ◌^◌, [], ◌∷◌, length};
ghost use Rattle.qh_model.specs.contract.{ClosedPolygons.steps_round, FaceTriangles.face_triangles};

use crate::fan::Fan;
use crate::point::Id;
use crate::sides::Sides;
use std::marker::Model;

/// The storage of a polygon's ids. Most faces have three or four corners, and these allocate no memory.
#[derive(Debug, Drop)]
enum Corners {
    Three([Id; 3]),
    Four([Id; 4]),
    Listed(Vec<Id>),
}

/// The ids round a face, counterclockwise seen from outside, from the least id on.
///
/// A contract sees a polygon as the list of its ids.
#[derive(Debug, Drop)]
pub struct Polygon {
    corners: Corners,
}

impl Model for Polygon {
    ghost use Rattle.std.specs.Prelude.{ℕ, List};
    ghost use Rattle.qh_model.specs.steps.Corners.{ids_of};

    ghost Value = { List ℕ };

    ghost view = { λ q. ids_of q.corners };
}

impl Polygon {
    /// Returns the polygon of three ids. It allocates no memory.
    pub fn triangle(i: Id, j: Id, k: Id) -> Polygon
        ensures { result ≡ i ∷ j ∷ k ∷ [] }
    {
        Polygon {
            corners: Corners::Three([i, j, k]),
        }
    }

    /// Returns the polygon of a list of ids. It allocates no memory, and keeps the list unless it has three or four
    /// ids.
    pub fn of(ids: Vec<Id>) -> Polygon
        ensures { result ≡ ids.items }
    {
        let corners = match ids.as_slice() {
            [i, j, k] => Corners::Three([*i, *j, *k]),
            [i, j, k, l] => Corners::Four([*i, *j, *k, *l]),
            _ => Corners::Listed(ids),
        };
        Polygon { corners }
    }

    /// Returns the ids, beginning with the least.
    pub fn ids(&self) -> &[Id]
        ensures { result.now ≡ self.now }
    {
        match &self.corners {
            Corners::Three(ids) => ids,
            Corners::Four(ids) => ids,
            Corners::Listed(ids) => ids.as_slice(),
        }
    }

    /// Returns the sides, beginning with the one between the first two ids. The last side ends at the first id.
    pub fn sides(&self) -> Sides<'_>
        ensures sides { result ≡ steps_round self.now }
        ensures few { length (steps_round self.now) < 2 ^ 64 }
    {
        Sides::of(self.ids())
    }

    /// Returns the triangles of the fan. Each consists of the first id and two neighbours. Fewer than three ids have no
    /// triangle.
    pub fn fan(&self) -> Fan<'_>
        ensures { result ≡ face_triangles self.now }
    {
        Fan::of(self.ids())
    }
}
