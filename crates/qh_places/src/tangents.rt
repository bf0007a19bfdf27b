//! Single planes, for guesses.
use crate::bundles::Bundle;
use qh_model::Point;
use qh_pred::Plane;

/// The plane of a triangle, and the bundle of this plane alone.
#[derive(Clone, Copy, Drop)]
pub struct Tangent {
    pub plane: Plane,
    pub(crate) bundle: Bundle,
}

impl Tangent {
    /// Returns the plane through the corners of a triangle, which are counterclockwise seen from above.
    pub fn of(corners: [Point; 3]) -> Tangent {
        let [a, b, c] = corners;
        let plane = Plane::through(a, b, c);
        Tangent {
            plane,
            bundle: Bundle::of_planes(a, &[plane]),
        }
    }
}
