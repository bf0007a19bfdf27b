//! The facets of a simplex.
ghost use Rattle.std.specs.Prelude.{◌≡◌, ◌↔◌, IsTrue, ◌<◌, length, pos, ◌<ℤ◌};
ghost use Rattle.qh_model.specs.headline.Predicates.{vol, place};
ghost use Rattle.qh_mesh.specs.contract.SoundMesh.{simplex_facets};

use crate::facets::{Facet, FacetSide};
use qh_model::{Id, Point};
use qh_pred::{point_at, vol};

/// Returns true if the triangle a b c strictly sees d.
pub fn sees(pts: &[Point], a: Id, b: Id, c: Id, d: Id) -> bool
    requires a_in { a < length pts.now }
    requires b_in { b < length pts.now }
    requires c_in { c < length pts.now }
    requires d_in { d < length pts.now }
    ensures { IsTrue result ↔ (pos 0 <ℤ vol (place pts.now a) (place pts.now b) (place pts.now c) (place pts.now d)) }
{
    vol(
        point_at(pts, a),
        point_at(pts, b),
        point_at(pts, c),
        point_at(pts, d),
    ) > 0
}

/// Returns the facets a b c, a d b, a c d and b d c.
pub fn four(a: u32, b: u32, c: u32, d: u32) -> [Facet; 4]
    ensures { result ≡ simplex_facets a b c d }
{
    [
        Facet::over(FacetSide::new(a, b, 5), c, 11, 6),
        Facet::over(FacetSide::new(a, d, 8), b, 9, 0),
        Facet::over(FacetSide::new(a, c, 2), d, 10, 3),
        Facet::over(FacetSide::new(b, d, 4), c, 7, 1),
    ]
}
