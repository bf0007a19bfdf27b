//! The iterator over the live facets.
ghost use Rattle.std.specs.Prelude.{◌≡◌, ◌<◌, ◌≤◌, length};
ghost use Rattle.std.specs.Iterator.{YieldsFirst, item_count};
ghost use Rattle.qh_mesh.specs.contract.{LiveNumbers.live_after, Replacement.IsLive};
ghost use Rattle.qh_model.specs.contract.StoredSurface.{surface_of};

use crate::mesh::Mesh;
use qh_model::FacetNo;
use std::marker::Model;

/// The numbers of the remaining live facets, rising. From [`Mesh::live`].
#[derive(Drop)]
pub struct Live<'a> {
    mesh: &'a Mesh,
    next: usize,
}

impl<'a> Model for Live<'a> {
    ghost use Rattle.std.specs.Prelude.{List, ℕ};
    ghost use Rattle.qh_mesh.specs.contract.LiveNumbers.{live_after};

    ghost Value = { List ℕ };

    ghost view = { λ l. live_after l.mesh.now l.next };
}

/// Returns the first live facet whose number is at least `from`, or the number of places.
fn first_live(mesh: &Mesh, from: usize) -> usize
    ensures same { live_after mesh.now from ≡ live_after mesh.now result }
    ensures live { result < length mesh.now → IsLive mesh.now result }
    ensures end { result ≤ length mesh.now }
{
    for f in from..mesh.places() {
        if mesh.is_live(FacetNo::new(f)) {
            return f;
        }
    }
    mesh.places()
}

impl<'a> Live<'a> {
    /// Returns all live facets of a mesh.
    pub(crate) fn of(mesh: &'a Mesh) -> Live<'a>
        ensures { result ≡ (surface_of mesh.now).live }
    {
        Live { mesh, next: 0 }
    }
}

impl<'a> Iterator for Live<'a> {
    type Item = FacetNo;

    ghost next_gives = { YieldsFirst (λ rest. rest) };

    ghost remaining = { item_count (λ rest. rest) };

    fn next(&mut self) -> Option<FacetNo> {
        let f = first_live(self.mesh, self.next);
        if f < self.mesh.places() {
            self.next = f + 1;
            Some(FacetNo::new(f))
        } else {
            self.next = f;
            None
        }
    }
}
