//! The walk along the sides of a polygon.
ghost use Rattle.std.specs.Prelude.{◌≡◌, ◌<◌, ◌^◌, length};
ghost use Rattle.std.specs.Iterator.{YieldsFirst, item_count};
ghost use Rattle.qh_model.specs.contract.ClosedPolygons.{steps_round};

use crate::point::Id;
use std::marker::Model;

/// An iterator over the sides of a polygon, each as its two ends. The last side ends at the first corner. Created by
/// [`Polygon::sides`](crate::Polygon::sides).
#[derive(Drop)]
pub struct Sides<'a> {
    /// The corner at which the next side begins.
    from: Id,
    /// The corners after `from`.
    along: &'a [Id],
    /// The corner at which the last side ends, until that side is returned.
    to: Option<Id>,
}

impl<'a> Model for Sides<'a> {
    ghost use Rattle.std.specs.Prelude.{List, ℕ};
    ghost use Rattle.qh_model.specs.steps.Walks.{sides_left};

    ghost Value = { List (ℕ × ℕ) };

    ghost view = { λ s. sides_left s.from s.along.now s.to };
}

impl<'a> Sides<'a> {
    /// Returns the sides of the polygon of a list of ids: one for each id.
    #[tactic(auto, using(crate::proofs::polygons::Steps::length_steps))]
    pub fn of(ids: &'a [Id]) -> Sides<'a>
        ensures sides { result ≡ steps_round ids.now }
        ensures few { length (steps_round ids.now) < 2 ^ 64 }
    {
        match ids {
            [first, along @ ..] => Sides {
                from: *first,
                along,
                to: Some(*first),
            },
            [] => Sides {
                from: Id::new(0),
                along: ids,
                to: None,
            },
        }
    }
}

impl<'a> Iterator for Sides<'a> {
    type Item = (Id, Id);

    ghost next_gives = { YieldsFirst (λ sides. sides) };

    ghost remaining = { item_count (λ sides. sides) };

    fn next(&mut self) -> Option<(Id, Id)> {
        let last = self.to?;
        let from = self.from;
        match self.along {
            [to, along @ ..] => {
                self.from = *to;
                self.along = along;
                Some((from, *to))
            }
            [] => {
                self.to = None;
                Some((from, last))
            }
        }
    }
}
