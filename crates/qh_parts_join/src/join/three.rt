//! The first three corners of a polygon.
ghost use Rattle.std.specs.Prelude.{IsTrue};
ghost use Rattle.qh_model.specs.headline.Sets.{In};

use qh_model::Id;

/// Three ids.
#[derive(Clone, Copy, Drop)]
pub(crate) struct Three {
    pub i: Id,
    pub j: Id,
    pub k: Id,
}

/// Returns true if an id is one of a list.
fn has(ids: &[Id], id: Id) -> bool
    ensures { IsTrue result → In id ids.now }
{
    ids.contains(&id)
}

impl Three {
    /// Returns true if each of the ids is one of a list.
    pub fn is_in(self, ids: &[Id]) -> bool
        ensures i { IsTrue result → In self.i ids.now }
        ensures j { IsTrue result → In self.j ids.now }
        ensures k { IsTrue result → In self.k ids.now }
    {
        has(ids, self.i) && has(ids, self.j) && has(ids, self.k)
    }
}
