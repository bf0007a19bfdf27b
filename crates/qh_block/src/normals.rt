//! The side from which the polygon of a set in one plane is seen.
ghost use Rattle.std.specs.Prelude.{◌≡◌, ◌≢◌, ◌⊎◌, ◌↔◌, IsTrue};
ghost use Rattle.qh_model.specs.headline.{Polygons.PointsForward, Vector.origin, Vector.minus};

use qh_pred::Normal;

/// Returns true if the first component that is not 0 is above 0.
fn points_forward(normal: &Normal) -> bool
    ensures { IsTrue result ↔ PointsForward normal.now }
{
    let (x, y, z) = (normal.x(), normal.y(), normal.z());
    x > 0 || x == 0 && (y > 0 || y == 0 && z > 0)
}

/// Returns the normal or its opposite, whichever points forward.
pub fn forward(normal: Normal) -> Normal
    requires { normal ≢ origin }
    ensures forward { PointsForward result }
    ensures side { (result ≡ normal) ⊎ (result ≡ minus origin normal) }
{
    if points_forward(&normal) {
        normal
    } else {
        normal.opposite()
    }
}
