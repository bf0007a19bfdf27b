//! Maps of space that map whole numbers to whole numbers and keep orientation.
ghost use Rattle.std.specs.Prelude.{◌≡◌, ◌<ℤ◌, ◌↔◌, IfOk, IfSome, IsSome, pos};
ghost use Rattle.qh_model.specs.headline.{Predicates.vol, Vector.origin};
ghost use Rattle.qh_lattice.specs.contract.LatticeMaps.{AreImages, determinant, moved};
ghost use Rattle.qh_lattice.specs.steps.Rows.{matrix_of, shift_of};

use crate::row::Row;
use qh_model::Point;
use qh_pred::vol;
use std::alloc::{AllocError, Global};

/// A linear map of whole numbers whose determinant is above 0, and a shift.
#[derive(Clone, Copy, Debug, Drop)]
pub(crate) struct LatticeMap {
    first: Row,
    second: Row,
    third: Row,
    ghost oriented: { pos 0 <ℤ determinant (matrix_of first second third) },
}

impl LatticeMap {
    /// Returns the map with these rows, if its determinant is above 0.
    pub fn new(first: Row, second: Row, third: Row) -> Option<LatticeMap>
        ensures some { IsSome result ↔ (pos 0 <ℤ vol origin first.by second.by third.by) }
        ensures rows { IfSome result (λ m. (m.first ≡ first) × (m.second ≡ second) × (m.third ≡ third)) }
    {
        if vol(Point::new(0, 0, 0), first.by, second.by, third.by) > 0 {
            Some(LatticeMap {
                first,
                second,
                third,
            })
        } else {
            None
        }
    }

    /// Returns the image of a point, if it is in range.
    fn image(&self, p: Point) -> Option<Point>
        ensures { IfSome result (λ q. q ≡ moved (matrix_of self.now.first self.now.second self.now.third)
            (shift_of self.now.first self.now.second self.now.third) p) }
    {
        let x = self.first.image(p)?;
        let y = self.second.image(p)?;
        let z = self.third.image(p)?;
        Some(Point::new(x, y, z))
    }

    /// Returns the images of points, if all are in range.
    pub fn images(&self, alloc: Global, pts: &[Point]) -> Result<Option<Vec<Point>>, AllocError>
        ensures { IfOk result (λ r. IfSome r (λ v. AreImages (matrix_of self.now.first self.now.second self.now.third)
            (shift_of self.now.first self.now.second self.now.third) pts.now v.items)) }
    {
        let mut images = Vec::with_capacity(alloc, pts.len())?;
        for p in pts {
            match self.image(*p) {
                Some(image) => images.push(image)?,
                None => return Ok(None),
            }
        }
        Ok(Some(images))
    }
}
