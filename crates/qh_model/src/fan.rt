//! The walk over the triangles of the fan of a polygon.
ghost use Rattle.std.specs.{Prelude.◌≡◌, Iterator.YieldsFirst, Iterator.item_count};
ghost use Rattle.qh_model.specs.contract.FaceTriangles.{face_triangles};

use crate::point::Id;
use std::marker::Model;

/// An iterator over the triangles of the fan of a polygon. Each triangle consists of the first corner and two
/// neighbours. Created by [`Polygon::fan`](crate::Polygon::fan).
#[derive(Drop)]
pub struct Fan<'a> {
    /// The corner that all triangles share.
    first: Id,
    /// The second corner of the next triangle.
    second: Id,
    /// The corners after the second.
    along: &'a [Id],
}

impl<'a> Model for Fan<'a> {
    ghost use Rattle.std.specs.Prelude.{List, ℕ};
    ghost use Rattle.qh_model.specs.headline.Fan.{triangles_along};

    ghost Value = { List (List ℕ) };

    ghost view = { λ f. triangles_along f.first f.second f.along.now };
}

impl<'a> Fan<'a> {
    /// Returns the triangles of the fan of a list of ids: two fewer than there are ids, and no triangle for fewer than
    /// three.
    pub fn of(ids: &'a [Id]) -> Fan<'a>
        ensures { result ≡ face_triangles ids.now }
    {
        match ids {
            [first, second, along @ ..] => Fan {
                first: *first,
                second: *second,
                along,
            },
            _ => Fan {
                first: Id::new(0),
                second: Id::new(0),
                along: &[],
            },
        }
    }
}

impl<'a> Iterator for Fan<'a> {
    type Item = [Id; 3];

    ghost next_gives = { YieldsFirst (λ triangles. triangles) };

    ghost remaining = { item_count (λ triangles. triangles) };

    fn next(&mut self) -> Option<[Id; 3]> {
        let (third, along) = self.along.split_first()?;
        let triangle = [self.first, self.second, *third];
        self.second = *third;
        self.along = along;
        Some(triangle)
    }
}
